//! The least map of a class of chirotopes up to relabelling and reorientation: the one whose signs, read in reverse
//! lexicographic order of the sets, come first.
//!
//! Source of the notions: Björner, Las Vergnas, Sturmfels, White and Ziegler, *Oriented Matroids*, chapters 3 and 7;
//! Finschi and Fukuda, *Generation of oriented matroids* (2002).
#![tactic(auto)]

mod beginning;
mod comparing;
mod image;
mod laws;
mod order;
mod search;
mod values;

pub use image::least_image;
pub use laws::{exactly_one_of_each_class, isomorphic_least_maps, places_of_least_maps};
pub use order::is_before;
pub use search::is_least;
