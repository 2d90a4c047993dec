//! The claims that the program reads back.
//!
//! A [`Claim`] is a document with a verdict on its chirotope, and [`read_claim`] reads one. [`print_verdict`] gives the
//! text of a verdict on a chirotope. The texts of claims and of answers of one line are those of `om_reply` and
//! `om_printing`, which this crate offers too.
#![tactic(auto)]

mod block;
mod block_lines;
mod block_reader;
mod claim_reader;
mod laws;
mod numbers;
mod range;
mod verdict;

pub use claim_reader::read_claim;
pub use laws::{bytes_have_one_reading, claims_begin_as_bytes};
pub use om_document::Kind;
pub use om_printing::{Line, pieces, print_line};
pub use om_reply::{Claim, print_claim};
pub use verdict::print_verdict;
