//! Small oriented matroids written as texts, and tests whether values are those of a text: only for tests.
//!
//! A text has one character for each sign: `+`, `-`, and any other for zero.
#![tactic(auto)]

mod letters;
mod sample_error;
mod samples;

pub use letters::{are_vectors, is_map, sign_of, signs_of, vector_of, vectors_of};
pub use sample_error::SampleError;
pub use samples::{chirotope_of, circuits_of, cocircuits_of, covectors_of, map_of};
