//! Signs and sign vectors written as texts, and whether signs are those of a text.

ghost use Rattle.std.specs.Prelude.{◌≡◌, ◌≤◌, length, IfOk};
ghost use Rattle.om_members.specs.Listings.{HaveLength, AreDistinct};

use super::sample_error::SampleError;
use om_members::is_member;
use om_signs::{List, MAX_ELEMENTS, MAX_MEMBERS, MAX_PLACES, RawMap, Sign, SignVec};
use std::alloc::Global;

/// The sign of a byte: that of `+` or `-`, and zero for any other byte.
pub fn sign_of(byte: u8) -> Sign {
    match byte {
        b'+' => Sign::Plus,
        b'-' => Sign::Minus,
        _ => Sign::Zero,
    }
}

/// The signs of a text, one for each byte. Memory for the list comes from `alloc`.
///
/// [`SampleError::Memory`] comes if memory runs out. No other error comes.
pub fn signs_of(alloc: Global, text: &str) -> Result<List<Sign>, SampleError> {
    let mut signs = List::new(alloc);
    for byte in text.as_bytes() {
        signs.push(sign_of(*byte))?;
    }
    Ok(signs)
}

/// The sign vector of a text, with a place for each of the elements, from 1 to [`MAX_PLACES`]. If the text is too
/// short, the last places are zero; if it is too long, its end is ignored.
pub fn vector_of(elements: u8, text: &str) -> SignVec
    requires low { 1 ≤ elements }
    requires high { elements ≤ MAX_PLACES }
    ensures { length result ≡ elements }
{
    let mut vector = SignVec::zero(elements);
    for (k, byte) in text.as_bytes().iter().enumerate() {
        if k < elements as usize {
            vector = vector.set(k as u8 + 1, sign_of(*byte));
        }
    }
    vector
}

/// The sign vectors of some texts, in their order, without repetitions. Memory for the list comes from `alloc`.
///
/// [`SampleError::Refused`] comes if the number of elements isn't from 1 to [`MAX_ELEMENTS`], or if there are more
/// than [`MAX_MEMBERS`] distinct vectors. [`SampleError::Memory`] comes if memory runs out.
pub fn vectors_of(alloc: Global, elements: u8, texts: &[&str]) -> Result<List<SignVec>, SampleError>
    ensures low { IfOk result (λ l. 1 ≤ elements) }
    ensures high { IfOk result (λ l. elements ≤ MAX_ELEMENTS) }
    ensures lengths { IfOk result (HaveLength elements) }
    ensures distinct { IfOk result AreDistinct }
    ensures few { IfOk result (λ l. length l ≤ MAX_MEMBERS) }
{
    if elements < 1 || elements > MAX_ELEMENTS {
        return Err(SampleError::Refused);
    }
    let mut list = List::new(alloc);
    for text in texts {
        let vector = vector_of(elements, text);
        if !is_member(list.as_slice(), vector) {
            if list.len() >= MAX_MEMBERS {
                return Err(SampleError::Refused);
            }
            list.push(vector)?;
        }
    }
    Ok(list)
}

/// Whether some sign vectors are those of a text, in any order, as many as the text has words. Words are separated
/// by a space, as in `0++ -0+`.
pub fn are_vectors(vectors: &[SignVec], text: &str) -> bool {
    text.split_whitespace().count() == vectors.len()
        && text.split_whitespace().all(|word| vectors.iter().any(|vector| is_vector(*vector, word)))
}

/// Whether a sign vector has the signs of a text, one for each byte.
fn is_vector(vector: SignVec, text: &str) -> bool {
    text.len() == vector.len() as usize && vector_of(vector.len(), text) == vector
}

/// Whether a map has this rank, this number of elements and the signs of a text, one for each byte.
pub fn is_map(raw: &RawMap, rank: u8, elements: u8, text: &str) -> bool {
    let signs = raw.signs.as_slice();
    raw.rank == rank
        && raw.elements == elements
        && signs.len() == text.len()
        && signs
            .iter()
            .zip(text.as_bytes())
            .all(|(sign, byte)| *sign == sign_of(*byte))
}
