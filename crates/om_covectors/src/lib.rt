//! Sets of sign vectors that satisfy the axioms of covectors.
//!
//! [`check`] tests whether a list of sign vectors satisfies the axioms, and names the first violated instance.
//!
//! Source of the notions: Björner, Las Vergnas, Sturmfels, White and Ziegler, *Oriented Matroids*, chapter 4.
#![tactic(auto)]

mod acceptance;
mod bad_cov;
mod closure;
mod cov_refused;
mod covectors;
mod elimination;
mod laws;
mod minimality;
mod threads;

pub use acceptance::check;
pub use bad_cov::BadCov;
pub use cov_refused::CovRefused;
pub use covectors::Covectors;
pub use laws::one_first_instance;
pub use minimality::{is_minimal, minimal_vectors};
