//! Sets of sign vectors that satisfy the axioms of circuits, which are also those of cocircuits.
//!
//! [`check`] tests whether a list of sign vectors satisfies the axioms, and names the first violated instance.
//!
//! Source of the notions: Björner, Las Vergnas, Sturmfels, White and Ziegler, *Oriented Matroids*, chapter 3.
#![tactic(auto)]

mod acceptance;
mod bad_set;
mod circuits;
mod cocircuits;
mod elimination;
mod laws;
mod set_refused;
mod signed_set;
mod supports;
mod threads;

pub use acceptance::check;
pub use bad_set::BadSet;
pub use circuits::Circuits;
pub use cocircuits::Cocircuits;
pub use laws::one_first_instance;
pub use set_refused::SetRefused;
pub use signed_set::SignedSet;
