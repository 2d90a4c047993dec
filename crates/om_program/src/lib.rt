//! All that the program `om` does, except its `main`: it reads words and a source, and writes one answer to a sink.
//!
//! [`run`] is a whole run. [`run_each`] is a run on many documents: it cuts the source into pieces, and answers each as
//! [`run`] answers an input of its own. A program that gets its inputs in another way can call its parts, which answer
//! a task on bytes and write the answer. The words of commands and their tasks are those of `om_words`.
#![tactic(auto)]

mod answering;
mod each;
mod piece_answers;
mod plan;
mod running;
mod writing;

pub use answering::answer_input;
pub use each::run_each;
pub use om_reply::{Answer, Status, write_answer, write_usage};
pub use om_words::{Task, Usage, command};
pub use running::run;
