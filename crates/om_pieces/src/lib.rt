//! An input of many documents or claims, cut into pieces, each of which is one document or claim.
//!
//! `specs/Pieces.antt` defines what a piece is. [`Cutter`] takes an input byte by byte and gives its pieces. It
//! needs as much memory as two pieces within the limit on inputs.
#![tactic(auto)]

mod cutter;
mod laws;
mod seen;

pub use cutter::Cutter;
pub use laws::{one_cut, pieces_give_back};
pub use seen::Seen;
