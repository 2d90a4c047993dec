//! The words of a command, and the task that they name.
//!
//! [`command`] reads the words after the program's name as a [`Task`]. If they name none, [`Usage`] says which word
//! is at fault. The call allocates no memory.
#![tactic(auto)]

mod argument;
mod arguments;
mod colouring;
mod laws;
mod leading;
mod limits;
mod numbered;
mod options;
mod reading;
mod reads;
mod setting;
mod spelling;
mod task;
mod triple;
mod verb;
mod words;

pub use colouring::Colouring;
pub use laws::number_of_the_limit;
pub use leading::Leading;
pub use limits::MAX_LISTED;
pub use om_printing::Usage;
pub use reading::{reading_command, wanted_ends};
pub use reads::Reads;
pub use task::Task;
pub use words::command;
