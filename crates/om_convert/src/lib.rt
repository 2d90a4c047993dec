//! Conversions between the kinds of values that denote an oriented matroid.
//!
//! Each of chirotope, circuits, cocircuits and covectors converts to each of the three others, for example by
//! [`chirotope_to_circuits`] and [`circuits_to_chirotope`]. The result denotes the same oriented matroid. It is the
//! only one of its kind that does: a chirotope up to sign, a list up to the order of its members.
//!
//! A list may denote an oriented matroid whose chirotope has more than [`MAX_VALUES`](om_signs::MAX_VALUES) values.
//! Then it converts to no other kind, except from covectors to their cocircuits. [`rank_circuits`],
//! [`rank_cocircuits`] and [`rank_covectors`] still give its rank.
//!
//! [`chirotope_of_circuits`] and [`chirotope_of_cocircuits`] are given this rank, and have no such limit. They find
//! the signs one after the other from those of neighbouring bases.
//!
//! Source of the notions: Björner, Las Vergnas, Sturmfels, White and Ziegler, *Oriented Matroids*, chapters 3 and 4.
#![tactic(auto)]

mod chirotopes;
mod closure;
mod convert_error;
mod covectors;
mod hitting;
mod list_chirotopes;
mod lists;
mod member_set;
mod propagation;
mod ranks;
mod read_error;
mod reading;
mod signs;
mod vectors;

pub use chirotopes::{chirotope_to_circuits, chirotope_to_cocircuits, chirotope_to_covectors};
pub use convert_error::ConvertError;
pub use covectors::covectors_to_cocircuits;
pub use hitting::{minimal_meeting, missed_vector};
pub use list_chirotopes::{circuits_to_chirotope, cocircuits_to_chirotope, covectors_to_chirotope};
pub use lists::{
    circuits_to_cocircuits, circuits_to_covectors, cocircuits_to_circuits, cocircuits_to_covectors,
    covectors_to_circuits,
};
pub use propagation::{
    chirotope_of, chirotope_of_circuits, chirotope_of_cocircuits, propagated_map,
};
pub use ranks::{rank_circuits, rank_cocircuits, rank_covectors};
pub use read_error::{ReadCovError, ReadSetError};
pub use reading::{read_circuits, read_cocircuits, read_covectors};
