//! The two families of chirotopes.

ghost use Rattle.std.specs.Prelude.{◌≡◌, ◌<◌, ◌↔◌, length, IsTrue};
ghost use Rattle.om_subsets.specs.Subsets.{choose};
ghost use Rattle.om_levels.specs.Families.{IsHalfOf};

use om_covers::{is_simple_half, is_uniform_half};
use om_localize::Signature;
use om_signs::MAX_ELEMENTS;

/// A family of chirotopes of rank 3 of which lists are complete.
///
/// Source: Björner, Las Vergnas, Sturmfels, White and Ziegler, *Oriented Matroids*, chapters 3 and 7.
#[derive(Clone, Copy, Debug, PartialEq, Eq)]
pub enum Family {
    /// The simple ones: every two elements are together in some basis. So there are no loops and no parallel elements.
    Simple,
    /// The uniform ones: no sign is zero.
    Uniform,
}

impl Family {
    /// Whether the step tries the extension with this signature. The signature is one of a chirotope of rank 3 on n
    /// elements, fewer than [`MAX_ELEMENTS`].
    pub(crate) fn tries(self, n: u8, signature: Signature) -> bool
        requires room { n < MAX_ELEMENTS }
        requires size { length signature ≡ choose n 2 }
        ensures { IsTrue result ↔ IsHalfOf self n signature }
    {
        match self {
            Family::Simple => is_simple_half(n, signature),
            Family::Uniform => is_uniform_half(signature),
        }
    }
}
