//! The lines of bytes, the words of a line, and the numbers and signs that words spell.
#![tactic(auto)]

pub mod lines;
pub mod words;
