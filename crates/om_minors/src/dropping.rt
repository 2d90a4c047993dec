//! Sign vectors without the place of an element.

ghost use Rattle.std.specs.Prelude.{◌≤◌, length, IfOk};
ghost use Rattle.om_members.specs.Listings.{AreDistinct};
ghost use Rattle.om_denotation.specs.Listings.{AreAllOf};
ghost use Rattle.om_minors.specs.Dropped.{HavePlace, IsDropped, IsZeroDropped};

use indexmap::IndexSet;
use om_signs::{List, NoMemory, Sign, SignVec};
use std::alloc::Global;

/// The vectors without the place of e, each once, in the order in which they first occur.
pub fn without_place(alloc: Global, vectors: &[SignVec], e: u8) -> Result<List<SignVec>, NoMemory>
    requires low { 1 ≤ e }
    requires places { HavePlace e vectors.now }
    ensures members { IfOk result (AreAllOf (IsDropped e vectors.now)) }
    ensures distinct { IfOk result AreDistinct }
    ensures few { IfOk result (λ l. length l ≤ length vectors.now) }
{
    let mut seen = IndexSet::new(alloc);
    let mut list = List::new(alloc);
    for x in vectors {
        let y = x.drop_place(e);
        if seen.insert(y)? {
            list.push(y)?;
        }
    }
    Ok(list)
}

/// The vectors that are 0 at e, without this place, in their order. The vectors are distinct.
pub fn zero_without_place(
    alloc: Global,
    vectors: &[SignVec],
    e: u8,
) -> Result<List<SignVec>, NoMemory>
    requires low { 1 ≤ e }
    requires places { HavePlace e vectors.now }
    requires distinct { AreDistinct vectors.now }
    ensures members { IfOk result (AreAllOf (IsZeroDropped e vectors.now)) }
    ensures distinct { IfOk result AreDistinct }
    ensures few { IfOk result (λ l. length l ≤ length vectors.now) }
{
    let mut list = List::new(alloc);
    for x in vectors {
        if x.get(e) == Sign::Zero {
            list.push(x.drop_place(e))?;
        }
    }
    Ok(list)
}
