ghost use Rattle.std.specs.Prelude.{◌≡◌, ◌≤◌, ◌<◌, ◌∷◌, [], ◌++◌, length, take, slice_get, Some};

use super::vector::Vector;
use om_signs::MAX_ELEMENTS;
use std::marker::Model;

/// The number of places of a word.
const ROOM: usize = MAX_ELEMENTS as usize;

/// A list of at most [`MAX_ELEMENTS`] vectors, by value. Contracts see the list.
#[derive(Clone, Copy, Debug, PartialEq, Eq)]
pub struct Word {
    vectors: [Vector; ROOM],
    len: u8,
}

impl Model for Word {
    ghost use Rattle.std.specs.Prelude.{List, ◌++◌, length, take};
    ghost use Rattle.om_vectors.specs.WholeVectors.{WholeVector};

    ghost Value = { List WholeVector };

    ghost use Rattle.om_vectors.specs.Words.{free_places, IsWordTable, length-used, whole_table};

    ghost view = { λ w. take w.len w.vectors };

    ghost invariant = { λ w. IsWordTable w.vectors w.len };

    ghost inverse = { λ xs. record { vectors = xs ++ free_places (length xs); len = length xs } };

    ghost inverse_ok = { λ a h. Prim.simp (whole_table, length-used) };
}

impl Word {
    /// The empty list.
    pub fn new() -> Word
        ensures { result ≡ [] }
    {
        Word {
            vectors: [Vector::zero(); ROOM],
            len: 0,
        }
    }

    /// The number of vectors, at most [`MAX_ELEMENTS`].
    pub fn len(&self) -> u8
        ensures value { result ≡ length self.now }
        ensures few { result ≤ MAX_ELEMENTS }
    {
        self.len
    }

    /// The vector at the index `i`, counted from 0. `i` is below the length.
    pub fn at(&self, i: u8) -> Vector
        requires { i < length self.now }
        ensures { slice_get self.now i ≡ Some result }
    {
        self.vectors[i as usize]
    }

    /// The vectors as a slice.
    pub fn as_slice(&self) -> &[Vector]
        ensures value { result.now ≡ self.now }
        ensures few { length self.now ≤ MAX_ELEMENTS }
    {
        &self.vectors[..self.len as usize]
    }

    /// Adds a vector at the end. The length is below [`MAX_ELEMENTS`].
    pub fn push(&mut self, v: Vector)
        requires { length self.old < MAX_ELEMENTS }
        ensures { self.new ≡ self.old ++ v ∷ [] }
    {
        self.vectors[self.len as usize] = v;
        self.len += 1;
    }

    /// Keeps the first `len` vectors. `len` is at most the length.
    pub fn cut(&mut self, len: u8)
        requires { len ≤ length self.old }
        ensures { self.new ≡ take len self.old }
    {
        for i in len..self.len {
            self.vectors[i as usize] = Vector::zero();
        }
        self.len = len;
    }
}
