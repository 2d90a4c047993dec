//! Classes of chirotopes of rank 3 up to relabelling and reorientation: the laws by which a list with a chirotope of
//! each class on n elements leads to one on n + 1.
//!
//! Source of the notions: Björner, Las Vergnas, Sturmfels, White and Ziegler, *Oriented Matroids*, chapters 3 and 7.
#![tactic(auto)]

mod growing;
mod halves;
mod laws;

pub use growing::extension;
pub use halves::{is_simple_half, is_uniform_half};
pub use laws::{
    cover_by_lines, deletion_of_the_last_element, extensions_go_along, images_of_simple_chirotopes,
    last_element_off_a_basis, next_list_is_complete, three_elements, whole_listing,
};
