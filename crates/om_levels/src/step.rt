//! The step from a list on n elements to one on n + 1.

ghost use Rattle.std.specs.Prelude.{ℕ, ◌≡◌, ◌<◌, ◌+◌, ◌⊎◌, length, replicate, slice_index_or, true, false, All};
ghost use Rattle.std.specs.Prelude.{IsNone, IfSome, IfOk};
ghost use Rattle.std.specs.List.{Contains};
ghost use Rattle.om_covers.specs.Classes.{IsComplete};
ghost use Rattle.om_levels.specs.declared.verdict.Verdict.TheVariants.{Complete};
ghost use Rattle.om_levels.specs.Families.{IsOfFamily};
ghost use Rattle.om_levels.specs.Steps.{IsVerdict};

use super::family::Family;
use super::level::Level;
use super::reaching::{Reaching, reached_by};
use super::table::Table;
use super::verdict::Verdict;
use om_signs::{MAX_ELEMENTS, NoMemory};
use std::alloc::Global;
use std::thread::Threads;

/// Whether the next list is complete on n + 1 elements if the first one is on n. The extensions of each member of the
/// first list by those signatures that the family tries are looked up in the next list. These are, for simple
/// chirotopes, the signatures of which the first nonzero sign is minus and that aren't zero at all pairs with some
/// element. For uniform ones they are those without zero that begin with minus. Members are handled one after the
/// other, and the extensions of a member on several threads. The verdict is the first one in their order.
///
/// There are fewer than [`MAX_ELEMENTS`] elements in the first list, and one more in the next. Memory comes from
/// `alloc`: about as much as the next list takes, and 9 bytes for each of its members.
///
/// [`NoMemory`] comes only if memory runs out.
///
/// Source: Björner, Las Vergnas, Sturmfels, White and Ziegler, *Oriented Matroids*, chapter 7; Finschi and Fukuda,
/// *Generation of oriented matroids* (2002).
pub fn next_level<R: Threads + Sync>(
    rt: &R,
    alloc: Global,
    family: Family,
    level: &Level,
    next: &Level,
) -> Result<Verdict, NoMemory>
    requires room { level.now.elements < MAX_ELEMENTS }
    requires elements { next.now.elements ≡ level.now.elements + 1 }
    ensures verdict { IfOk result (IsVerdict family level.now next.now) }
    ensures complete { IfOk result (λ v. v ≡ Complete → IsComplete (IsOfFamily family level.now.elements) level.now.maps
        → IsComplete (IsOfFamily family next.now.elements) next.now.maps) }
{
    prove!(level.elements() < MAX_ELEMENTS);
    let table = Table::of(alloc, next)?;
    let mut met = marks(alloc, next.len())?;
    for member in 0..level.len() {
        let chi = level.get(alloc, member)?;
        match reached_by(rt, alloc, family, &chi, &table)? {
            Reaching::Places(places) => mark(&mut met, places.as_slice()),
            Reaching::Missing(signature) => return Ok(Verdict::Missing { member, signature }),
            Reaching::TooMany => return Ok(Verdict::TooMany { member }),
        }
    }
    match first_unmarked(met.as_slice()) {
        Some(member) => Ok(Verdict::Unmet { member }),
        None => Ok(Verdict::Complete),
    }
}

/// So many marks, none of them set.
fn marks(alloc: Global, count: usize) -> Result<Vec<bool>, NoMemory>
    ensures { IfOk result (λ v. v.items ≡ replicate count false) }
{
    let mut marks = Vec::new(alloc);
    for _k in 0..count {
        marks.push(false)?;
    }
    Ok(marks)
}

/// Sets the marks at these places.
fn mark(marks: &mut Vec<bool>, places: &[usize])
    requires { All (λ place. place < length marks.old.items) places.now }
    ensures len { length marks.new.items ≡ length marks.old.items }
    ensures marked { (k : ℕ) → slice_index_or marks.new.items k false ≡ true
        → (slice_index_or marks.old.items k false ≡ true) ⊎ Contains places.now k }
    ensures kept { (k : ℕ) → slice_index_or marks.old.items k false ≡ true
        → slice_index_or marks.new.items k false ≡ true }
    ensures set { All (λ place. slice_index_or marks.new.items place false ≡ true) places.now }
{
    for place in places {
        marks[*place] = true;
    }
}

/// The first place whose mark isn't set, or None if all are.
fn first_unmarked(marks: &[bool]) -> Option<usize>
    ensures none { IsNone result → All (λ b. b ≡ true) marks.now }
    ensures some { IfSome result (λ k. k < length marks.now) }
    ensures unset { IfSome result (λ k. slice_index_or marks.now k false ≡ false) }
{
    marks.iter().position(|marked| !*marked)
}
