ghost use Rattle.std.specs.Prelude.{ℕ, ◌≡◌, ◌≤◌, ◌↔◌, List, IsTrue, length, map, replicate};
ghost use Rattle.om_signs.specs.declared.sign.Sign.{Sign};
ghost use Rattle.om_signs.specs.declared.sign.Sign.TheVariants.{Zero};
ghost use Rattle.om_signs.specs.Sign.{opposite};
ghost use Rattle.om_signs.specs.SignVec.{compose};
ghost use Rattle.om_covectors.specs.Vectors.{IsSeparatedAt};
ghost use Rattle.om_denotation.specs.Elimination.{HasEliminator};

use om_signs::{MAX_ELEMENTS, SignVec};

/// A value that denotes an oriented matroid. Contracts see the set of its covectors.
///
/// Source: Björner, Las Vergnas, Sturmfels, White and Ziegler, Oriented Matroids, chapters 3 and 4.
pub trait Oriented {
    /// The set of the covectors, as a property of a list of signs.
    ghost is_covector: { Self → List Sign → Type 0 };

    /// The number of elements; each covector has a sign for each.
    ghost elements: { Self → ℕ };

    /// The value satisfies the axioms of its type.
    ghost valid: { Self → Type 0 };

    /// The number of elements, from 1 to [`MAX_ELEMENTS`].
    fn elements(&self) -> u8
        ensures value { result ≡ elements self.now }
        ensures low { 1 ≤ elements self.now }
        ensures high { elements self.now ≤ MAX_ELEMENTS }
        ensures lawful { valid self.now };

    /// Whether a sign vector is a covector. It has one sign for each element. The call allocates no memory.
    fn is_covector(&self, x: SignVec) -> bool
        requires { length x ≡ elements self.now }
        ensures { IsTrue result ↔ is_covector self.now x };

    /// The zero vector is a covector.
    ghost zero: { (M : Self) → valid M → is_covector M (replicate (elements M) Zero) };

    /// The negative of a covector is a covector.
    ghost negative: { (M : Self) (X : List Sign) → valid M → length X ≡ elements M → is_covector M X
        → is_covector M (map opposite X) };

    /// The composition of two covectors is a covector.
    ghost composition: { (M : Self) (X Y : List Sign) → valid M → length X ≡ elements M → length Y ≡ elements M
        → is_covector M X → is_covector M Y → is_covector M (compose X Y) };

    /// Some covector eliminates each element of the separation of two covectors: it is zero there, and equals their
    /// composition outside the separation.
    ghost elimination: { (M : Self) (X Y : List Sign) (e : ℕ) → valid M → length X ≡ elements M → length Y ≡ elements M
        → is_covector M X → is_covector M Y → 1 ≤ e → IsSeparatedAt X Y e
        → HasEliminator (elements M) (is_covector M) X Y e };
}
