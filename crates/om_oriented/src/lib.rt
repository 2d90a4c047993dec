//! Oriented matroids through their covectors: one trait for chirotopes, circuits, cocircuits and covectors, and the
//! test whether two values denote the same oriented matroid.
//!
//! [`Colour`] and [`Painted`] are the types of colourings and of what fits them; `om_paint` finds it.
//!
//! Source of the notions: Björner, Las Vergnas, Sturmfels, White and Ziegler, Oriented Matroids, chapters 3 and 4.
#![tactic(auto)]

mod chirotopes;
mod circuits;
mod cocircuits;
mod colour;
mod comparison;
mod covector_sets;
mod differ;
pub mod laws;
pub mod list_laws;
mod oriented;
mod painted;
mod walk;

pub use colour::Colour;
pub use comparison::same;
pub use differ::Differ;
pub use oriented::Oriented;
pub use painted::Painted;
