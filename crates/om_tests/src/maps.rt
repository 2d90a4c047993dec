//! A well-known list of signs, and lists of vectors.

use om_signs::MAX_ELEMENTS;
use om_vectors::{Vector, Word};

/// The signs of the Pappus configuration: nine points in the plane, in which 123, 456, 789, 159, 168, 249, 267, 348
/// and 357 are the collinear triples.
pub const PAPPUS: &str =
    "0++++++++++++--------0-0++++++++++----0---+0+++++---0+-0++++++++0------------------0";

/// The vectors with these coordinates. Those beyond the limit are omitted.
pub fn word_of(rows: &[[i64; 3]]) -> Word {
    let mut word = Word::new();
    for row in rows {
        if let Some(vector) = Vector::new(row[0], row[1], row[2])
            && word.len() < MAX_ELEMENTS
        {
            word.push(vector);
        }
    }
    word
}
