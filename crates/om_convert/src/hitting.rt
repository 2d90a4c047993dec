//! Sets that meet every vector of a list.

ghost use Rattle.std.specs.Prelude.{◌≡◌, ◌≤◌, ◌↔◌, ◌⊎◌, IsTrue, IfSome, IfNone, length};
ghost use Rattle.std.specs.List.{Contains};
ghost use Rattle.om_members.specs.Listings.{HaveLength};
ghost use Rattle.om_members.specs.Vectors.{IsZero};
ghost use Rattle.om_subsets.specs.Subsets.{IsSubsetFrom};
ghost use Rattle.om_convert.specs.Hitting.{IsNonzeroOn, MeetsEach, MeetsFamily, IsNonzeroMember, IsNarrowed};
ghost use Rattle.om_convert.specs.Hitting.{IsMinimalMeeting};

use om_members::is_zero;
use om_signs::{MAX_ELEMENTS, SignVec};
use om_subsets::Subset;

/// Whether a vector is nonzero at some element of a set. They are on the same elements.
pub fn meets(y: SignVec, s: Subset) -> bool
    requires { length y ≡ s.n }
    ensures { IsTrue result ↔ IsNonzeroOn s.elements y }
{
    y.support() & s.mask() != 0
}

/// A vector of the list that is zero on the set, or None if the set meets every vector. The set is taken from the
/// elements 1 to n, and each vector has n signs.
pub fn missed_vector(vectors: &[SignVec], s: Subset) -> Option<SignVec>
    requires { HaveLength s.n vectors.now }
    ensures none { IfNone result (MeetsEach vectors.now s.elements) }
    ensures contained { IfSome result (Contains vectors.now) }
    ensures missed { IfSome result (λ y. IsNonzeroOn s.elements y → ⊥) }
{
    for y in vectors {
        if !meets(*y, s) {
            return Some(*y);
        }
    }
    None
}

/// Whether a vector is zero, or nonzero at some element of a set.
fn passes(y: SignVec, s: Subset) -> bool
    requires { length y ≡ s.n }
    ensures { IsTrue result ↔ (IsZero y ⊎ IsNonzeroOn s.elements y) }
{
    is_zero(y) || meets(y, s)
}

/// A nonzero vector of the list that is zero on the set, or None if the set meets every nonzero vector.
fn missed_nonzero_vector(vectors: &[SignVec], s: Subset) -> Option<SignVec>
    requires { HaveLength s.n vectors.now }
    ensures none { IfNone result (MeetsFamily (IsNonzeroMember vectors.now) s.elements) }
    ensures contained { IfSome result (Contains vectors.now) }
    ensures nonzero { IfSome result (λ y. IsZero y → ⊥) }
    ensures missed { IfSome result (λ y. IsNonzeroOn s.elements y → ⊥) }
{
    for y in vectors {
        if !passes(*y, s) {
            return Some(*y);
        }
    }
    None
}

/// The set without e, if it still meets every nonzero vector, and else the set itself.
fn narrowed(vectors: &[SignVec], set: Subset, e: u8) -> Subset
    requires low { 1 ≤ e }
    requires high { e ≤ set.n }
    requires lengths { HaveLength set.n vectors.now }
    requires lawful { IsSubsetFrom 1 set.n set.elements }
    ensures n { result.n ≡ set.n }
    ensures lawful { IsSubsetFrom 1 result.n result.elements }
    ensures narrowed { IsNarrowed (IsNonzeroMember vectors.now) set.elements e result.elements }
{
    let rest = set.without(e);
    if missed_nonzero_vector(vectors, rest).is_some() {
        set
    } else {
        rest
    }
}

/// A minimal set that meets every nonzero vector: none of its elements can be left out. Each vector has `elements`
/// signs, at most [`MAX_ELEMENTS`]. It allocates no memory.
///
/// Source: Björner, Las Vergnas, Sturmfels, White and Ziegler, *Oriented Matroids*, chapter 3.
pub fn minimal_meeting(elements: u8, vectors: &[SignVec]) -> Subset
    requires high { elements ≤ MAX_ELEMENTS }
    requires lengths { HaveLength elements vectors.now }
    ensures n { result.n ≡ elements }
    ensures lawful { IsSubsetFrom 1 elements result.elements }
    ensures minimal { IsMinimalMeeting (IsNonzeroMember vectors.now) result.elements }
{
    let mut set = Subset::first(elements, elements);
    for e in 1..elements + 1 {
        set = narrowed(vectors, set, e);
    }
    set
}
