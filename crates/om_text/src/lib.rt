//! Documents of oriented matroids: read from bytes line by line, and printed in canonical form.
#![tactic(auto)]

mod blocks;
mod body_lines;
mod draft;
mod kind;
mod laws;
mod parse_error;
mod points;
mod reader;
mod refusal;
mod revlex;
mod setting_lines;
mod stage;
mod state;
mod stepping;

pub use laws::{
    documents_begin_as_bytes, documents_have_no_fault, faults_are_unique,
    inputs_are_documents_or_have_faults, values_are_unique,
};
pub use om_document::{
    Body, Code, Document, Kind, Name, print, print_map, print_two, sorting_keeps_members,
};
pub use om_lines::{lines, words};
pub use parse_error::ParseError;
pub use reader::{parse, parse_part};
pub use refusal::Refusal;
