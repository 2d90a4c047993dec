//! From a document to the oriented matroid that it gives, and back to a document.
//!
//! [`represent`] tests whether a document satisfies the axioms of its kind, and gives its [`Representation`]. Points
//! and wirings are represented by their chirotope. [`choose_chirotope`] gives the chirotope of a representation,
//! and [`document_of`] its document. [`refused_line`] says why a document is refused.
//!
//! Source of the notions: Björner, Las Vergnas, Sturmfels, White and Ziegler, *Oriented Matroids*, chapters 3, 4 and 6.
#![tactic(auto)]

mod chirotope_choice;
mod document_refused;
mod documents;
mod point_vectors;
mod refusal_lines;
mod representation;
mod unchosen;
mod unrepresented;
mod wiring_maps;

pub use chirotope_choice::choose_chirotope;
pub use document_refused::DocumentRefused;
pub use documents::{
    circuits_document, cocircuits_document, covectors_document, document_of, map_document,
};
pub use point_vectors::chirotope_of_points;
pub use refusal_lines::{rank_line, refused_line, width_line};
pub use representation::{Representation, represent};
pub use unchosen::Unchosen;
pub use unrepresented::Unrepresented;
pub use wiring_maps::wiring_of_blocks;
