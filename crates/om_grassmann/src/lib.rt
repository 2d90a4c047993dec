//! Three-term statements: what the three-term Grassmann-Plücker relations say about the sizes of the brackets of
//! all vectors that have the signs of a chirotope of rank 3.
//!
//! Source of the notions: Bokowski and Richter-Gebert, On the finding of final polynomials, 1990; Björner, Las Vergnas,
//! Sturmfels, White and Ziegler, Oriented Matroids, chapter 8.
#![tactic(auto)]

mod brackets;
mod frame;
mod lawfulness;
mod laws;
mod numbering;
mod statement;
mod terms;
mod walk;

pub use brackets::sides;
pub use lawfulness::lawful;
pub use laws::{
    brackets_of_lawful_statements, directions_of_equations, numbers_of_lawful_statements,
    order_of_lawful_statements, strict_or_equations,
};
pub use numbering::nth_statement;
pub use statement::Statement;
pub use walk::following;
