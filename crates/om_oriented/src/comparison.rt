//! Whether two values denote the same oriented matroid.

ghost use Rattle.std.specs.Prelude.{◌≡◌, ◌↔◌, IsOk, IsErr, IfErr};
ghost use Rattle.om_denotation.specs.Denotation.{DenoteTheSame, HaveDifference, IsFirstDifference};

use super::differ::Differ;
use super::oriented::Oriented;
use super::walk::{following, least};

/// Whether two values with the same number of elements denote the same oriented matroid: the same sign vectors are
/// covectors of both. Otherwise [`Differ`] has the first sign vector that is a covector of exactly one of them. The
/// order is lexicographic, with minus before zero before plus.
///
/// For n elements the walk tests up to 3^n sign vectors. The call allocates no memory.
///
/// Source: Björner, Las Vergnas, Sturmfels, White and Ziegler, *Oriented Matroids*, chapters 3 and 4.
pub fn same<A: Oriented, B: Oriented>(a: &A, b: &B) -> Result<(), Differ>
    requires { A.elements a.now ≡ B.elements b.now }
    ensures same { IsOk result ↔ DenoteTheSame (A.elements a.now) (A.is_covector a.now) (B.is_covector b.now) }
    ensures differ { IsErr result ↔ HaveDifference (A.elements a.now) (A.is_covector a.now) (B.is_covector b.now) }
    ensures first { IfErr result (λ d.
        IsFirstDifference (A.elements a.now) (A.is_covector a.now) (B.is_covector b.now) d.x) }
{
    let mut x = least(a.elements());
    loop {
        if a.is_covector(x) != b.is_covector(x) {
            return Err(Differ { x });
        }
        match following(x) {
            Some(next) => x = next,
            None => return Ok(()),
        }
    }
}
