//! Subsets of the elements 1 to n, as increasing lists in lexicographic or reverse lexicographic order.
#![tactic(auto)]

mod binomials;
mod laws;
mod operations;
mod subset;
mod subsets;
mod threads;

pub use binomials::MOST_SUBSETS;
pub use laws::{
    changed_members, increasing_lists, lexicographic_order, masks_and_lists, number_of_subsets,
    places_and_lists, reverse_lexicographic_order, reverse_places_and_lists, successor,
};
pub use subset::Subset;
pub use subsets::Subsets;
