//! The three-term test of a map: bases have exchange, and the three-term relations hold.
//!
//! [`check`] accepts exactly the chirotopes, and names the first part of the test that fails. Its refusals can be
//! checked by hand: they name two bases and an element, or a list and four elements.
//!
//! Source of the notions: Björner, Las Vergnas, Sturmfels, White and Ziegler, *Oriented Matroids*, chapter 3.
#![tactic(auto)]

mod bad_three;
mod checking;
mod exchanges;
mod relations;
mod sets;
mod three_refused;

pub use bad_three::BadThree;
pub use checking::check;
pub use three_refused::ThreeRefused;
