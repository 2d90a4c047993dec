//! The program `om_classes`: it reads words and lists of chirotopes of rank 3 on standard input, and writes what is shown
//! of each list, or the least map of the class of each chirotope, to standard output.
#![tactic(auto)]

use om_classification::{Status, classify};
use om_port::{NoWords, StdSink, StdSource, words};
use std::io;
use std::process::ExitCode;

/// The exit code if the runtime doesn't hand over the words for another reason than a lack of memory.
const NO_WORDS: u8 = 7;

fn main(rt: HostRuntime) -> ExitCode {
    let words = match words(&rt) {
        Ok(words) => words,
        Err(NoWords::Memory) => return ExitCode::from(Status::NoMemory.code()),
        Err(NoWords::Unreadable) => return ExitCode::from(NO_WORDS),
    };
    let mut source = StdSource::new(rt.reader());
    let mut sink = StdSink::new(io::writer(&rt));
    let status = classify(&rt, rt.alloc(), words.as_slice(), &mut source, &mut sink);
    ExitCode::from(status.code())
}
