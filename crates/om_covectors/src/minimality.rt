//! Vectors of minimal support.

ghost use Rattle.std.specs.Prelude.{◌≡◌, ◌↔◌, [], IsTrue, IfOk, MatchBool};
ghost use Rattle.om_covectors.specs.Minimality.{HasSmallerSupport, HasNoSmallerSupport, IsMinimal, AreThose};

use om_members::is_zero;
use om_signs::{List, NoMemory, SignVec};
use std::alloc::Global;

/// Whether y is nonzero and its support lies strictly in that of x.
fn has_smaller_support(y: SignVec, x: SignVec) -> bool
    ensures { MatchBool result (HasSmallerSupport y x) (HasNoSmallerSupport y x) }
{
    let inner = y.support();
    let outer = x.support();
    inner != 0 && inner & !outer == 0 && outer & !inner != 0
}

/// Whether a vector is nonzero and no nonzero member has its support strictly inside. The call allocates no memory.
///
/// Source: Björner, Las Vergnas, Sturmfels, White and Ziegler, *Oriented Matroids*, chapter 3.
pub fn is_minimal(members: &[SignVec], x: SignVec) -> bool
    ensures { IsTrue result ↔ IsMinimal members.now x }
{
    if is_zero(x) {
        return false;
    }
    for y in members {
        if has_smaller_support(*y, x) {
            return false;
        }
    }
    true
}

/// The nonzero vectors of minimal support among these, in their order. Memory for the list comes from `alloc`.
///
/// [`NoMemory`] comes only if memory runs out.
///
/// Source: Björner, Las Vergnas, Sturmfels, White and Ziegler, *Oriented Matroids*, chapter 3.
pub fn minimal_vectors(alloc: Global, vectors: &[SignVec]) -> Result<List<SignVec>, NoMemory>
    ensures { IfOk result (AreThose (IsMinimal vectors.now) vectors.now) }
{
    with_minimal(List::new(alloc), vectors)
}

/// The nonzero vectors of minimal support among these, in their order, put into an empty list.
pub fn with_minimal(empty: List<SignVec>, vectors: &[SignVec]) -> Result<List<SignVec>, NoMemory>
    requires { empty ≡ [] }
    ensures { IfOk result (AreThose (IsMinimal vectors.now) vectors.now) }
{
    let mut minimal = empty;
    for x in vectors {
        if is_minimal(vectors, *x) {
            minimal.push(*x)?;
        }
    }
    Ok(minimal)
}
