//! A normal form of simple chirotopes of rank 3: a signed permutation that takes a chirotope to the same image as each
//! chirotope that is isomorphic to it.
//!
//! Source of the notions: Björner, Las Vergnas, Sturmfels, White and Ziegler, *Oriented Matroids*, chapters 3 and 6.
#![tactic(auto)]

mod finding;
mod frame;
mod labelling;
mod signs;

pub use finding::label;
