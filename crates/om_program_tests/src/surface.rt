//! The surface of the crates that read and write bytes: each public name, by the path under which callers know it.
//! Nothing here runs. A definition that moves to another crate has to stay reachable by its path, or this file isn't
//! compiled any more. `om_tests` has such a file for the other crates.
//!
//! A module is named for its crate, without `om_`, and brings in the types, traits and calls of the crate. The
//! functions below name the methods.

/// Sources and sinks.
pub mod port {
    pub use om_port::{
        CountSink, Failed, MemSink, MemSource, ReadError, Sink, Source, StdSink, StdSource,
        SureSource, WriteFault, read_all, write_all,
    };
}

/// Documents.
pub mod text {
    pub use om_text::{
        Body, Code, Document, Name, ParseError, parse, parse_part, print, print_two,
    };
}

/// Texts of answers, and claims.
pub mod answer {
    pub use om_answer::{Claim, Kind, Line, print_line, print_verdict, read_claim};
}

/// Words and whole runs.
pub mod program {
    pub use om_program::{Status, Task, Usage, command, run};
}

/// The methods of sources, sinks and names.
pub fn methods_of_bytes() {
    let _sources = (
        port::MemSource::new,
        port::SureSource::new,
        <port::SureSource as port::Source>::read,
    );
    let _sinks = (
        port::MemSink::new,
        port::MemSink::bytes,
        port::CountSink::new,
        port::CountSink::taken,
        <port::CountSink as port::Sink>::write,
    );
    let _names = text::Name::new;
}
