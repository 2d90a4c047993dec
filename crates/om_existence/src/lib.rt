//! An answer always exists, though the law names none.
//!
//! The contract of [`run`](om_program::run) says that words and bytes mean at most one answer. The law of this
//! crate says that it is absurd that they mean none.
#![tactic(auto)]

mod laws;

pub use laws::every_input_has_an_answer;
