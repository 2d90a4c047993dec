//! Limits of the words of commands.

use om_signs::MAX_ELEMENTS;

/// The greatest number of letters of a colouring, and of words of a lexicographic extension: one for each element.
pub const MAX_LISTED: usize = MAX_ELEMENTS as usize;
