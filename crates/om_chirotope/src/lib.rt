//! Chirotopes: maps that give a sign to each increasing list of r elements, and satisfy the axioms.
#![tactic(auto)]

mod bad_map;
mod checking;
mod chirotope;
mod cocircuit_table;
mod exchange;
mod laws;
mod map_refused;
mod marking;
mod scan;
mod threaded_scan;
mod threads;
mod three_terms;
mod vectors;
mod walking;
mod whole_map;

pub use bad_map::BadMap;
pub use checking::check;
pub use chirotope::Chirotope;
pub use exchange::has_exchange;
pub use laws::{axioms_and_relations, most_pairs, three_term_test, vectors_of_a_map};
pub use map_refused::MapRefused;
pub use scan::violated;
pub use three_terms::{are_balanced, has_three_term_relations};
pub use whole_map::WholeMap;
