//! The matroid of a chirotope: bases, rank, loops, coloops, parallel elements and exchange.
//!
//! Source of the notions: Björner, Las Vergnas, Sturmfels, White and Ziegler, *Oriented Matroids*, chapter 3.
#![tactic(auto)]

mod bases;
mod elements;
mod exchanges;
mod laws;
mod ranks;
mod search;

pub use bases::{extend_to_basis, first_basis};
pub use elements::{is_coloop, is_loop, parallel};
pub use exchanges::exchange;
pub use laws::{empty_set_is_independent, exchange_of_bases};
pub use om_chirotope::three_term_test;
pub use ranks::rank_of;
