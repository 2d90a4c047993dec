//! The texts of answers of one line, and the pieces of longer texts.
//!
//! A [`Line`] is an answer of one line, and [`print_line`] gives its text; [`pieces`] puts together longer texts.
#![tactic(auto)]

mod field;
mod fields;
mod line;
pub mod pieces;
mod texts;
mod usage;

pub use fields::{push_number, push_signed};
pub use line::Line;
pub use texts::print_line;
pub use usage::Usage;
