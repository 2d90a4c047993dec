//! Whether texts were made.

use om_signs::NoMemory;

/// Whether a text was made, and is this one.
pub fn is_made(made: Result<Vec<u8>, NoMemory>, text: &[u8]) -> bool {
    match made {
        Ok(made) => made.as_slice() == text,
        Err(_) => false,
    }
}
