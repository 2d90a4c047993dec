//! The commands of rank 3, that is of the plane, and the check of a claim.
//!
//! Each command answers by an [`Answer`](om_reply::Answer), and the check by a [`Line`](om_printing::Line).
#![tactic(auto)]

mod decision;
mod extension_list;
mod flipping;
mod made_input;
mod mutation_list;
mod sweeping;
mod verification;

pub use decision::judge;
pub use extension_list::list_extensions;
pub use flipping::flip_triple;
pub use made_input::make_input;
pub use mutation_list::list_mutations;
pub use sweeping::find_wiring;
pub use verification::verify;
