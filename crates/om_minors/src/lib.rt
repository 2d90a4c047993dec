//! Deletion, contraction and reorientation of oriented matroids.
//!
//! [`delete_chirotope`] and [`contract_chirotope`] take a chirotope and an element, and return the normal chirotope
//! of the minor. [`reorient_chirotope`] returns that of the reorientation of a set of elements. The calls on
//! circuits, on cocircuits and on covectors do the same with lists.
//!
//! Source of the notions: Björner, Las Vergnas, Sturmfels, White and Ziegler, *Oriented Matroids*, chapters 3 and 4.
#![tactic(auto)]

mod circuits;
mod cocircuits;
mod covectors;
mod dropping;
mod flipping;
mod laws;
mod minor_error;
mod minors;
mod reorientation;
mod signed_sets;

pub use circuits::{contract_circuits, delete_circuits, reorient_circuits};
pub use cocircuits::{contract_cocircuits, delete_cocircuits, reorient_cocircuits};
pub use covectors::{contract_covectors, delete_covectors, reorient_covectors};
pub use laws::{deletion_and_contraction_are_dual, reorientation_twice};
pub use minor_error::MinorError;
pub use minors::{contract_chirotope, delete_chirotope};
pub use reorientation::reorient_chirotope;
