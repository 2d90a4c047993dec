//! The dual of an oriented matroid.
//!
//! [`dual`] takes a chirotope and returns the normal chirotope of its dual; [`dual_circuits`], [`dual_cocircuits`]
//! and [`dual_covectors`] take lists. [`normal_by`] makes a normal chirotope from a rule for its signs, a
//! [`SignRule`].
//!
//! Source of the notions: Björner, Las Vergnas, Sturmfels, White and Ziegler, *Oriented Matroids*, chapters 3 and 4.
#![tactic(auto)]

mod laws;
mod lists;

pub use laws::{dual_of_the_dual, normal_forms};
pub use lists::{dual_circuits, dual_cocircuits, dual_covectors};
pub use om_denotation::{SignRule, dual, normal_by};
