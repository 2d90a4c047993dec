//! Vectors of three integers, the signs of their triple products, and the chirotopes of rank 3 that they realize.
//!
//! Source: Björner, Las Vergnas, Sturmfels, White and Ziegler, *Oriented Matroids*, chapters 1 and 8.
#![tactic(auto)]

pub mod laws;
mod realizing;
mod signs;
mod signs_error;
mod tally;
mod triple_products;
mod triple_signs;
mod unfound;
mod vector;
mod word;

pub use realizing::realizes;
pub use signs::signs_of;
pub use signs_error::SignsError;
pub use tally::Tally;
pub use triple_products::triple;
pub use triple_signs::sign_of;
pub use unfound::Unfound;
pub use vector::Vector;
pub use word::Word;
