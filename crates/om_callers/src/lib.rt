//! Callers of the library, to copy from: from bytes to covectors, and a search over all triples.
//!
//! Each shows what a caller writes, and what the caller learns from the contracts.
#![tactic(auto)]

mod not_read;
mod reading;
mod triples;

pub use not_read::NotRead;
pub use reading::covectors_of_text;
pub use triples::first_triple;
