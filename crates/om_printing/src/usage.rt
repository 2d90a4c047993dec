use thiserror::Error;

/// The words aren't a command, and this is the word at fault, counted from 1. It is the first word such that the
/// words up to it begin no command. If all words begin a command but aren't one, it is one more than their number.
#[derive(Clone, Copy, Debug, PartialEq, Eq, Error)]
#[error("word {word} is at fault")]
pub struct Usage {
    pub word: u32,
}
