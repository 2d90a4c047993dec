//! All that the program `om_classes` does, except its `main`: it reads lists of chirotopes of rank 3, those on 4, 5,
//! and so on elements, and shows that each is complete, or that it has exactly one member of each class. Or it writes
//! the least map of the class of each chirotope of rank 3 that it reads.
//!
//! [`classify`] is a whole run. The lists and what is shown of them are those of `om_chain`.
//!
//! Source of the notions: Björner, Las Vergnas, Sturmfels, White and Ziegler, *Oriented Matroids*, chapters 3 and 7;
//! Finschi and Fukuda, *Generation of oriented matroids* (2002).
#![tactic(auto)]

mod document;
mod fault;
mod laws;
mod least_progress;
mod line;
mod list_progress;
mod progress;
mod request;
mod run;
mod step;
mod texts;
mod writing;

pub use document::{Unread, read_member};
pub use fault::Fault;
pub use laws::exact_lists;
pub use least_progress::LeastProgress;
pub use line::Line;
pub use list_progress::ListProgress;
pub use om_reply::Status;
pub use progress::Progress;
pub use request::{ListRequest, Request, request_of};
pub use run::classify;
pub use step::Step;
pub use texts::{push_line, text_of};
