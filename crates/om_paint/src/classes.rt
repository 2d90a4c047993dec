//! Classes of sign vectors, whose first members a search finds.

ghost use Rattle.std.specs.Prelude.{ℕ, ◌≡◌, ◌<◌, ◌↔◌, List, Some, IfSome, length};
ghost use Rattle.om_signs.specs.declared.sign.Sign.{Sign as Signs};

use om_signs::{MAX_ELEMENTS, SignVec};

/// The greatest number of classes: one for each element, and one more.
pub const CLASSES: usize = MAX_ELEMENTS as usize + 1;

/// For each class, the first one of its members that have been met so far.
pub type Firsts = [Option<SignVec>; CLASSES];

/// Classes of the sign vectors of one length, numbered from 0 on. No vector is in two of them.
pub trait Classes {
    /// The length of the vectors.
    ghost elements: { Self → ℕ };

    /// The vectors of each class.
    ghost holds: { Self → ℕ → List Signs → Type 0 };

    /// What has to hold of the value.
    ghost valid: { Self → Type 0 };

    /// The class of a vector, if it is in one.
    fn class_of(&self, x: SignVec) -> Option<usize>
        requires valid { valid self.now }
        requires size { length x ≡ elements self.now }
        ensures class { (i : ℕ) → holds self.now i x ↔ (result ≡ Some i) }
        ensures few { IfSome result (λ i. i < CLASSES) };
}
