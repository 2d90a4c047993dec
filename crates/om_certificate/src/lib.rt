//! Certificates for and against the realizability of a chirotope of rank 3, and their checker.
//!
//! [`check`] decides whether vectors, a balanced list of three-term statements, or weights of the brackets prove
//! what they are given for.
//!
//! Source of the notions: Bokowski and Richter-Gebert, *On the finding of final polynomials*, 1990; Björner, Las
//! Vergnas, Sturmfels, White and Ziegler, *Oriented Matroids*, chapter 8.
#![tactic(auto)]

mod balance;
mod cert_refused;
mod checking;
mod entry;
mod evidence;
mod laws;
mod lp_end;
mod room;
mod verdict;
mod weighing;
mod weight;

pub use cert_refused::CertRefused;
pub use checking::check;
pub use entry::Entry;
pub use evidence::Evidence;
pub use laws::{
    certificates_exclude_vectors, one_refusal, statements_hold_of_vectors,
    weights_exclude_certificates,
};
pub use lp_end::LpEnd;
pub use om_simplex::Stage;
pub use verdict::{Verdict, certificate};
pub use weighing::is_nonzero;
pub use weight::Weight;
