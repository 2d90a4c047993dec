//! Lists of sign vectors: members, positions, zero vectors, negatives and supports. They serve whatever lists
//! circuits, cocircuits or covectors.
//!
//! Source of the notions: Björner, Las Vergnas, Sturmfels, White and Ziegler, *Oriented Matroids*, chapters 3 and 4.
#![tactic(auto)]

mod members;

pub use members::{are_same, first_without_negative, is_member, is_zero};
