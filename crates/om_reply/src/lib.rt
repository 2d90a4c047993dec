//! The answer to a command: how a run ends with it, and its text.
//!
//! A command decides an [`Answer`]. It has a [`Status`], [`print_answer`] makes its text, and [`write_answer`] writes
//! it. A [`Claim`] is a document with a verdict on its chirotope.
#![tactic(auto)]

mod answer;
mod claim;
mod claim_text;
mod extension_text;
mod hull_text;
mod made_text;
mod mutation_text;
mod printing;
mod status;
mod statuses;
mod usage_line;
mod verdict_lines;
mod write_text;
mod writing;

pub use answer::Answer;
pub use claim::Claim;
pub use claim_text::print_claim;
pub use extension_text::push_signature;
pub use printing::print_answer;
pub use status::Status;
pub use statuses::{greater, is_answered};
pub use usage_line::write_usage;
pub use verdict_lines::push_block;
pub use writing::write_answer;
