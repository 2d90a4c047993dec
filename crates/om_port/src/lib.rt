//! Sources and sinks of bytes, which count their faults; calls that read and write whole inputs and outputs; and
//! the words of a program.
//!
//! A count of faults starts at 0 and never falls. It rose in a call if it is greater after the call than before, or
//! if it is at its last value, `u64::MAX`.
#![tactic(auto)]

mod arguments;
mod count_sink;
mod failed;
mod mem_sink;
mod mem_source;
mod plan;
mod read_error;
mod sink;
mod source;
mod std_sink;
mod std_source;
mod sure_source;
mod whole;
mod write_fault;

pub use arguments::{NoWords, words};
pub use count_sink::CountSink;
pub use failed::Failed;
pub use mem_sink::MemSink;
pub use mem_source::MemSource;
pub use read_error::ReadError;
pub use sink::Sink;
pub use source::Source;
pub use std_sink::StdSink;
pub use std_source::StdSource;
pub use sure_source::SureSource;
pub use whole::{read_all, write_all};
pub use write_fault::WriteFault;
