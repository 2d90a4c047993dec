//! The signs of the triple products of the vectors of a set.

ghost use Rattle.std.specs.Prelude.{◌≡◌, length};
ghost use Rattle.om_signs.specs.declared.limits.TheConstants.{MAX_ELEMENTS};
ghost use Rattle.om_vectors.specs.WholeVectors.{sign_of};
ghost use Rattle.om_vectors.specs.Realizations.{triple_sign};

use super::triple_products::triple;
use super::vector::Vector;
use om_signs::Sign;
use om_subsets::Subset;

/// The sign of the triple product of the vectors of three elements. Their set is taken from the elements 1 to the
/// number of vectors.
pub(crate) fn sign_of_triple(vectors: &[Vector], s: Subset) -> Sign
    requires n { s.n ≡ length vectors.now }
    requires size { length s.elements ≡ 3 }
    ensures { result ≡ triple_sign vectors.now s.elements }
{
    let (a, b, c) = s.three_elements();
    sign_of(triple(
        vectors[a as usize - 1],
        vectors[b as usize - 1],
        vectors[c as usize - 1],
    ))
}

/// The sign of an integer: plus above 0, minus below 0, and zero at 0.
///
/// Source: Björner, Las Vergnas, Sturmfels, White and Ziegler, *Oriented Matroids*, chapter 1.
pub fn sign_of(z: i128) -> Sign
    ensures { result ≡ sign_of z }
{
    if z > 0 {
        Sign::Plus
    } else if z < 0 {
        Sign::Minus
    } else {
        Sign::Zero
    }
}
