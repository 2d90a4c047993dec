//! Loops, coloops and parallel elements.

ghost use Rattle.std.specs.Prelude.{◌≡◌, ◌≤◌, ◌↔◌, IsTrue};
ghost use Rattle.om_subsets.specs.Subsets.{IsMember};
ghost use Rattle.om_matroid.specs.Bases.{IsLoop, IsColoop, AreParallel};
ghost use Rattle.om_chirotope.specs.ThreeTerm.{IsBasis};

use super::search::{first_between, is_basis};
use om_chirotope::Chirotope;
use om_subsets::Subset;

/// Whether e, from 1 to the number of elements, is a loop: an element of no basis. The call walks at most once over
/// the sets of as many elements as the rank, and allocates no memory.
///
/// Source: Björner, Las Vergnas, Sturmfels, White and Ziegler, *Oriented Matroids*, chapter 3.
pub fn is_loop(chi: &Chirotope, e: u8) -> bool
    requires low { 1 ≤ e }
    requires high { e ≤ chi.now.elements }
    ensures { IsTrue result ↔ IsLoop chi.now e }
{
    let nothing = Subset::first(0, chi.elements());
    first_between(chi, nothing.with(e), nothing).is_none()
}

/// Whether e, from 1 to the number of elements, is a coloop: an element of every basis. The call walks at most once
/// over the sets of as many elements as the rank, and allocates no memory.
///
/// Source: Björner, Las Vergnas, Sturmfels, White and Ziegler, *Oriented Matroids*, chapter 3.
pub fn is_coloop(chi: &Chirotope, e: u8) -> bool
    requires low { 1 ≤ e }
    requires high { e ≤ chi.now.elements }
    ensures { IsTrue result ↔ IsColoop chi.now e }
{
    let nothing = Subset::first(0, chi.elements());
    first_between(chi, nothing, nothing.with(e)).is_none()
}

/// Whether a set is a basis that contains e, and whether it is a basis that contains f.
fn in_basis(chi: &Chirotope, b: Subset, e: u8, f: u8) -> (bool, bool)
    requires n { b.n ≡ chi.now.elements }
    requires e_low { 1 ≤ e }
    requires e_high { e ≤ chi.now.elements }
    requires f_low { 1 ≤ f }
    requires f_high { f ≤ chi.now.elements }
    ensures first { IsTrue result.0 ↔ (IsBasis chi.now b.elements × IsMember e b.elements) }
    ensures second { IsTrue result.1 ↔ (IsBasis chi.now b.elements × IsMember f b.elements) }
{
    if is_basis(chi, b) {
        (b.has(e), b.has(f))
    } else {
        (false, false)
    }
}

/// Whether e and f, from 1 to the number of elements, are parallel: neither is a loop, and the set of both has rank
/// 1. So e is parallel to itself exactly if it is no loop. The call walks at most once over the sets of as many
/// elements as the rank, since no basis contains two parallel elements. It allocates no memory.
///
/// Source: Björner, Las Vergnas, Sturmfels, White and Ziegler, *Oriented Matroids*, chapter 3.
pub fn parallel(chi: &Chirotope, e: u8, f: u8) -> bool
    requires e_low { 1 ≤ e }
    requires e_high { e ≤ chi.now.elements }
    requires f_low { 1 ≤ f }
    requires f_high { f ≤ chi.now.elements }
    ensures { IsTrue result ↔ AreParallel chi.now e f }
{
    let mut first = false;
    let mut second = false;
    for b in Subset::all(chi.rank(), chi.elements()) {
        let (with_e, with_f) = in_basis(chi, b, e, f);
        if with_e && with_f && e != f {
            return false;
        }
        first |= with_e;
        second |= with_f;
    }
    first && second
}
