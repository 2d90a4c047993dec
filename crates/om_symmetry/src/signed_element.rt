ghost use Rattle.std.specs.Prelude.{◌≡◌};
ghost use Rattle.om_symmetry.specs.Permutations.{negated_if, sign_of};

use om_signs::Sign;

/// An element of 1 to n, or its negative.
///
/// Source: Björner, Las Vergnas, Sturmfels, White and Ziegler, *Oriented Matroids*, chapter 3.
#[derive(Clone, Copy, Debug, PartialEq, Eq)]
pub struct SignedElement {
    /// The element, counted from 1.
    pub element: u8,
    /// Whether the negative of the element is meant.
    pub negated: bool,
}

impl SignedElement {
    /// The element, negated once more if `negated` says so.
    pub fn negated_if(self, negated: bool) -> SignedElement
        ensures { result ≡ negated_if negated self }
    {
        SignedElement {
            element: self.element,
            negated: self.negated != negated,
        }
    }

    /// Minus for a negative, and else plus.
    pub fn sign(self) -> Sign
        ensures { result ≡ sign_of self }
    {
        if self.negated {
            Sign::Minus
        } else {
            Sign::Plus
        }
    }
}
