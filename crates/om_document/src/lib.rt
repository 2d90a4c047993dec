//! Documents of oriented matroids: what a document is, and its printed forms.
#![tactic(auto)]

mod body;
mod code;
mod document;
mod document_kind;
mod kinds;
mod laws;
mod name;
mod printer;
mod printer_two;
mod setting;
mod version;

pub use body::Body;
pub use code::Code;
pub use document::Document;
pub use document_kind::DocumentKind;
pub use kinds::Kind;
pub use laws::sorting_keeps_members;
pub use name::Name;
pub use printer::{print, print_map, push_signs};
pub use printer_two::print_two;
pub use setting::Setting;
pub use version::Version;
