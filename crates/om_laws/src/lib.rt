//! Laws of oriented matroids. Each function is a theorem: it has an empty body, and its contract is the statement.
//!
//! Here a sign vector is a function from elements to signs, and a map gives a sign to each list of elements. The
//! laws in `lists` relate these functions to the lists of signs that the calls of the other crates use.
//!
//! Source of the notions: Björner, Las Vergnas, Sturmfels, White and Ziegler, *Oriented Matroids*, chapters 3 and 4.
#![tactic(auto)]

mod bases;
mod circuits;
mod covectors;
mod denotation;
mod dual;
mod elements;
mod families;
mod lists;
mod minors;
mod operations;
mod relations;
mod tuples;
mod vectors;

pub use bases::{bases_have_one_size, exchange, fundamental_circuit, fundamental_cocircuit};
pub use circuits::{orthogonality, painting, strong_elimination};
pub use covectors::{
    axioms, compositions, conformal_decomposition, conforming_parts, minimal_support,
    vectors_and_covectors,
};
pub use denotation::{
    denotations, increasing_tuples_are_enough, tuples_of_the_rank_are_enough, uniqueness,
};
pub use dual::{double_dual, dual_on_increasing_lists, duality};
pub use elements::{loops_and_coloops, parallel_elements};
pub use families::{chirotope_of_circuits, chirotope_of_covectors, members_of_minimal_support};
pub use lists::{
    composition_of_lists, conformity_of_lists, lists_and_functions, negation_of_lists,
    orthogonality_of_lists, relation_as_orthogonality,
};
pub use minors::{contraction_of_an_element, deletion_of_an_element, minors_at_a_coloop_or_loop};
pub use operations::{negation, reorientation};
pub use relations::{
    around_a_list, balance_is_orthogonality, chirotope_of_increasing_lists, exchange_in_order,
    relations_of_increasing_lists, three_term_relations, three_term_relations_in_order,
    three_terms_of_all_lists,
};
pub use tuples::{
    only_alternating_map, value_alternates, value_at_a_repeat, value_when_increasing,
};
pub use vectors::{
    composition_keeps_orthogonality, negation_keeps_orthogonality, orthogonality_is_symmetric,
};
