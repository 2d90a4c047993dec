//! Signed permutations of the elements of an oriented matroid: relabellings and reorientations, and the laws of their
//! action on maps and chirotopes.
//!
//! Source of the notions: Björner, Las Vergnas, Sturmfels, White and Ziegler, *Oriented Matroids*, chapters 3 and 7.
#![tactic(auto)]

mod entries;
mod laws;
mod signed_element;
mod signed_permutation;

pub use laws::{
    action_on_maps, bases_of_an_image, group_of_signed_permutations, images_of_chirotopes,
    isomorphism_is_an_equivalence, reorientations_and_negatives, values_of_an_image,
};
pub use signed_element::SignedElement;
pub use signed_permutation::SignedPermutation;
