//! The tests of the program: of the libraries that read and write its texts, of whole runs over sources and sinks in
//! memory, and of the adapters over std's readers and writers. Beside them stand the public names of the library, by
//! the paths under which callers know them.
#![tactic(auto)]

#[cfg(test)]
mod adapters;
#[cfg(test)]
mod answer;
#[cfg(test)]
mod callers;
#[cfg(test)]
mod claim_copies;
#[cfg(test)]
mod claims;
#[cfg(test)]
mod faults;
#[cfg(test)]
mod helpers;
#[cfg(test)]
mod made;
#[cfg(test)]
mod port;
#[cfg(test)]
mod representation;
#[cfg(test)]
mod runs;
#[cfg(test)]
mod streams;
pub mod surface;
#[cfg(test)]
mod text;
#[cfg(test)]
mod verdicts;
#[cfg(test)]
mod words;
