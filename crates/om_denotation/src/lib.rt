//! What chirotopes, circuits, cocircuits and covectors denote: the definitions, and the proofs that each list that
//! meets its axioms denotes the same as some chirotope.
//!
//! [`normal_by`] makes a normal chirotope from a rule for its signs, a [`SignRule`]. [`dual`] makes the normal
//! chirotope of the dual.
//!
//! Source of the notions: Björner, Las Vergnas, Sturmfels, White and Ziegler, *Oriented Matroids*, chapters 3 and 4.
#![tactic(auto)]

mod duality;
mod sign_rule;

pub use duality::dual;
pub use sign_rule::{SignRule, normal_by};
