//! Whether a chirotope can be the next member of a list.

ghost use Rattle.std.specs.Prelude.{◌≡◌, ◌≤◌, ◌<◌, ◌∷◌, [], ◌↔◌, IsTrue, IsNone, IfSome, IfOk};
ghost use Rattle.om_matroid.specs.Bases.{IsIndependent};
ghost use Rattle.om_covers.specs.Classes.{IsSimple, IsUniform};
ghost use Rattle.om_levels.specs.Families.{IsOfFamily};
ghost use Rattle.om_chain.specs.Chains.{ChainOfLists, AreFirstDependent, IsFirstZero, IsBehind, IsUnfit};

use super::unfit::Unfit;
use om_chirotope::Chirotope;
use om_least::is_before;
use om_levels::{Family, Level};
use om_matroid::rank_of;
use om_signs::{NoMemory, Sign};
use om_subsets::Subset;
use std::alloc::Global;

/// Whether two elements are together in some basis.
fn are_independent(chi: &Chirotope, e: u8, f: u8) -> bool
    requires low { 1 ≤ e }
    requires apart { e < f }
    requires high { f ≤ chi.now.elements }
    ensures { IsTrue result ↔ IsIndependent chi.now (e ∷ f ∷ []) }
{
    let pair = Subset::first(0, chi.elements()).with(f).with(e);
    rank_of(chi, pair) >= 2
}

/// The first two elements that are in no common basis, or None if the chirotope is simple.
fn first_dependent(chi: &Chirotope) -> Option<(u8, u8)>
    ensures none { IsNone result → IsSimple chi.now }
    ensures some { IfSome result (λ pair. AreFirstDependent chi.now pair.0 pair.1) }
{
    let n = chi.elements();
    for e in 1..n {
        for f in e + 1..n + 1 {
            if !are_independent(chi, e, f) {
                return Some((e, f));
            }
        }
    }
    None
}

/// The first set with the sign 0, or None if the chirotope is uniform.
fn first_zero(chi: &Chirotope) -> Option<Subset>
    ensures none { IsNone result → IsUniform chi.now }
    ensures some { IfSome result (IsFirstZero chi.now) }
{
    Subset::all(chi.rank(), chi.elements()).find(|set| chi.at(*set) == Sign::Zero)
}

/// Why a chirotope of rank 3 isn't of a family, or None if it is.
pub(crate) fn outside(family: Family, chi: &Chirotope) -> Option<Unfit>
    requires { chi.now.rank ≡ 3 }
    ensures none { IsNone result → IsOfFamily family chi.now.elements chi.now }
    ensures some { IfSome result (λ unfit. (c : ChainOfLists) → c.family ≡ family → IsUnfit c chi.now unfit) }
{
    prove!(chi.rank() == 3);
    match family {
        Family::Simple => {
            let (e, f) = first_dependent(chi)?;
            Some(Unfit::Dependent { e, f })
        }
        Family::Uniform => {
            let set = first_zero(chi)?;
            Some(Unfit::Zero { set })
        }
    }
}

/// Whether the last member of a list, if there is one, comes before the chirotope, which is of rank 3 on as many
/// elements. Memory for the member's signs comes from `alloc`.
///
/// [`NoMemory`] comes only if memory runs out.
pub(crate) fn is_behind(alloc: Global, list: &Level, chi: &Chirotope) -> Result<bool, NoMemory>
    requires rank { chi.now.rank ≡ 3 }
    requires elements { chi.now.elements ≡ list.now.elements }
    ensures { IfOk result (λ b. IsTrue b ↔ IsBehind list.now.maps chi.now) }
{
    let len = list.len();
    if len == 0 {
        return Ok(true);
    }
    let last = list.get(alloc, len - 1)?;
    Ok(is_before(&last, chi))
}
