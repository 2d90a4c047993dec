//! Lists of chirotopes of rank 3, packed, and the step by which a list on n elements shows that one on n + 1 elements
//! is complete.
//!
//! Source of the notions: Björner, Las Vergnas, Sturmfels, White and Ziegler, *Oriented Matroids*, chapters 3 and 7.
#![tactic(auto)]

mod family;
mod level;
mod lookup;
mod packing;
mod reaching;
mod step;
mod table;
mod verdict;

pub use family::Family;
pub use level::Level;
pub use step::next_level;
pub use table::Table;
pub use verdict::Verdict;
