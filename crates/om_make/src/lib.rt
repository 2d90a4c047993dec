//! A large input determined by a number: vectors that a generator draws, and a summary of the oriented matroid that
//! they have.
//!
//! [`vectors`] draws the vectors, and [`summary`] counts the signs, the cocircuits, the covectors and the mutations
//! of their chirotope.
//!
//! Source of the notions: Björner, Las Vergnas, Sturmfels, White and Ziegler, *Oriented Matroids*, chapters 1, 3, 6 and
//! 8.
#![tactic(auto)]

mod counting;
mod drawing;
mod generator;
mod laws;
mod listing;
mod return_trip;
mod summarizing;

pub use drawing::vectors;
pub use laws::members_in_rank_three;
pub use om_vectors::Tally;
pub use summarizing::summary;
