//! Chains of lists of chirotopes of rank 3, one on each number of elements: the state between the documents of a
//! stream of such lists, and what is shown of each list.
//!
//! Source of the notions: Björner, Las Vergnas, Sturmfels, White and Ziegler, *Oriented Matroids*, chapters 3 and 7;
//! Finschi and Fukuda, *Generation of oriented matroids* (2002).
#![tactic(auto)]

mod asked;
mod chain;
mod fitting;
mod gap;
mod laws;
mod unfit;

pub use asked::Asked;
pub use chain::Chain;
pub use gap::Gap;
pub use laws::{lists_with_one_of_each_class, shown_lists};
pub use unfit::Unfit;
