//! The scan for violated exchanges of bases.

ghost use Rattle.std.specs.Prelude.{ℕ, List, ◌≡◌, ◌+◌, ◌<◌, ◌≤◌, ◌↔◌, length, take, IsTrue, IfNone, IfSome};
ghost use Rattle.om_subsets.specs.Subsets.{choose, subset_at, AreApart, IsMember};
ghost use Rattle.om_chirotope.specs.ThreeTerm.{IsBasis, HasExchange};
ghost use Rattle.om_threeterm.specs.Violations.{IsUnexchanged, IsFirstUnexchanged, IsFirstUnexchangedOf};
ghost use Rattle.om_threeterm.specs.Sets.{all_chosen, IsInPlace, IsUnexchangedAt};

use super::sets::{ROOM, fill, is_basis, is_basis_at};
use om_chirotope::{WholeMap, has_exchange};
use om_parallel::{Probe, first_bad_by_cost};
use om_subsets::Subset;
use std::thread::Threads;

/// The first violated exchange: the bases b and c, and the element e of b that can be exchanged for no element of
/// c. None if bases have exchange. The call allocates no memory.
pub fn first_unexchanged<R: Threads + Sync>(rt: &R, map: &WholeMap) -> Option<(Subset, Subset, u8)>
    ensures none { IfNone result (HasExchange map.now) }
    ensures first { IfSome result (λ x. IsFirstUnexchanged map.now x.0 x.1 x.2) }
{
    if has_exchange_apart(map) {
        return None;
    }
    first_unexchanged_by_scan(rt, map)
}

/// Whether bases have exchange, by the fast test. It is never inlined, so that its table isn't on the stack while
/// the scan runs.
#[inline(never)]
fn has_exchange_apart(map: &WholeMap) -> bool
    ensures { IsTrue result ↔ HasExchange map.now }
{
    has_exchange(map.raw)
}

/// The first violated exchange, by a scan of all bases. There is one. The table of the bases holds the first [`ROOM`]
/// sets. These are all sets, if the map has no more values than a map of a document.
#[inline(never)]
fn first_unexchanged_by_scan<R: Threads + Sync>(
    rt: &R,
    map: &WholeMap,
) -> Option<(Subset, Subset, u8)>
    requires violated { HasExchange map.now → ⊥ }
    ensures none { IfNone result (HasExchange map.now) }
    ensures first { IfSome result (λ x. IsFirstUnexchanged map.now x.0 x.1 x.2) }
{
    let mut room = [Subset::from_mask(0, map.raw.elements); ROOM];
    let count = (Subset::choose(map.raw.elements, map.raw.rank) as usize).min(ROOM);
    let sets = &mut room[..count];
    fill(map.raw.elements, map.raw.rank, sets);
    first_unexchanged_among(rt, map, sets)
}

/// The time that it takes to compare a set with the elements of a basis, in nanoseconds.
const SET: u64 = 10;

/// A map, and a table of the first sets of as many elements as its rank. The number of a set is its place. It is bad
/// if some exchange of this set is violated.
#[derive(Drop)]
struct Bases<'a> {
    map: &'a WholeMap<'a>,
    sets: &'a [Subset],
    ghost filled: { sets.now ≡ take (length sets.now) (all_chosen map.now.elements map.now.rank) },
}

impl Probe for Bases<'_> {
    ghost use Rattle.om_threeterm.specs.Sets.{IsUnexchangedAt};

    ghost is_bad = { λ s k. IsUnexchangedAt s.map.now k };

    fn bad(&self, k: u64) -> bool {
        let map = self.map;
        if k >= Subset::choose(map.raw.elements, map.raw.rank) as u64 {
            return false;
        }
        self.first_unexchanged_of(self.set_at(k as usize)).is_some()
    }
}

impl Bases<'_> {
    /// The set at place k: from the table, or found by its place.
    fn set_at(&self, k: usize) -> Subset
        requires { k < choose self.now.map.now.elements self.now.map.now.rank }
        ensures n { result.n ≡ self.now.map.now.elements }
        ensures elements { result.elements ≡ subset_at self.now.map.now.elements self.now.map.now.rank k }
        ensures size { length result.elements ≡ self.now.map.now.rank }
    {
        let sets = self.sets;
        if k < sets.len() {
            return sets[k];
        }
        let map = self.map;
        let raw = map.raw;
        Subset::unrank(k as u32, raw.rank, raw.elements)
    }

    /// The first violated exchange of a set: the basis c, and the element e of the set that can be exchanged for no
    /// element of c. None if the set is no basis, or has exchange with all bases.
    fn first_unexchanged_of(&self, b: Subset) -> Option<(Subset, u8)>
        requires n { b.n ≡ self.now.map.now.elements }
        requires size { length b.elements ≡ self.now.map.now.rank }
        ensures none { IfNone result ((c : List ℕ) (e : ℕ) → IsUnexchanged self.now.map.now b.elements c e → ⊥) }
        ensures first { IfSome result (λ x. IsFirstUnexchangedOf self.now.map.now b.elements x.0 x.1) }
    {
        let map = self.map;
        if !is_basis(map, b) {
            return None;
        }
        let mut limit = Subset::choose(map.raw.elements, map.raw.rank) as usize;
        let mut found = None;
        for e in 1..map.raw.elements + 1 {
            if let Some(k) = self.first_unexchanged_by(b, e, limit) {
                limit = k;
                found = Some(e);
            }
        }
        match found {
            None => None,
            Some(e) => Some((self.set_at(limit), e)),
        }
    }

    /// The first place, below a limit, of a basis with which the exchange of the element e of the basis b is
    /// violated. None if there is no such basis, or e is no element of b.
    fn first_unexchanged_by(&self, b: Subset, e: u8, limit: usize) -> Option<usize>
        requires n { b.n ≡ self.now.map.now.elements }
        requires basis { IsBasis self.now.map.now b.elements }
        requires e_low { 1 ≤ e }
        requires e_high { e ≤ self.now.map.now.elements }
        requires limit { limit ≤ choose self.now.map.now.elements self.now.map.now.rank }
        ensures none { IfNone result ((j : ℕ) → j < limit → IsUnexchanged self.now.map.now b.elements
            (subset_at self.now.map.now.elements self.now.map.now.rank j) e → ⊥) }
        ensures within { IfSome result (λ k. k < limit) }
        ensures here { IfSome result (λ k. IsUnexchanged self.now.map.now b.elements
            (subset_at self.now.map.now.elements self.now.map.now.rank k) e) }
        ensures earlier { IfSome result (λ k. (j : ℕ) → j < k → IsUnexchanged self.now.map.now b.elements
            (subset_at self.now.map.now.elements self.now.map.now.rank j) e → ⊥) }
    {
        if !b.has(e) {
            return None;
        }
        self.first_basis_apart(in_place_of(self.map, b, e), limit)
    }

    /// The first place, below a limit, of a basis that has no element in common with a set.
    fn first_basis_apart(&self, set: Subset, limit: usize) -> Option<usize>
        requires n { set.n ≡ self.now.map.now.elements }
        requires limit { limit ≤ choose self.now.map.now.elements self.now.map.now.rank }
        ensures none { IfNone result ((j : ℕ) → j < limit
            → IsBasis self.now.map.now (subset_at self.now.map.now.elements self.now.map.now.rank j)
            → AreApart (subset_at self.now.map.now.elements self.now.map.now.rank j) set.elements → ⊥) }
        ensures within { IfSome result (λ k. k < limit) }
        ensures basis { IfSome result
            (λ k. IsBasis self.now.map.now (subset_at self.now.map.now.elements self.now.map.now.rank k)) }
        ensures apart { IfSome result
            (λ k. AreApart (subset_at self.now.map.now.elements self.now.map.now.rank k) set.elements) }
        ensures earlier { IfSome result (λ k. (j : ℕ) → j < k
            → IsBasis self.now.map.now (subset_at self.now.map.now.elements self.now.map.now.rank j)
            → AreApart (subset_at self.now.map.now.elements self.now.map.now.rank j) set.elements → ⊥) }
    {
        for k in 0..limit {
            if is_basis_at(self.map, k) && self.set_at(k).is_apart_from(set) {
                return Some(k);
            }
        }
        None
    }
}

/// The first violated exchange, found with the sets of as many elements as the rank.
fn first_unexchanged_among<R: Threads + Sync>(
    rt: &R,
    map: &WholeMap,
    sets: &[Subset],
) -> Option<(Subset, Subset, u8)>
    requires { sets.now ≡ take (length sets.now) (all_chosen map.now.elements map.now.rank) }
    ensures none { IfNone result (HasExchange map.now) }
    ensures first { IfSome result (λ x. IsFirstUnexchanged map.now x.0 x.1 x.2) }
{
    let bases = Bases { map, sets };
    let count = Subset::choose(map.raw.elements, map.raw.rank) as u64;
    match first_bad_by_cost(rt, &bases, count, count * SET) {
        None => None,
        Some(k) => {
            let b = bases.set_at(k as usize);
            let (c, e) = bases.first_unexchanged_of(b)?;
            Some((b, c, e))
        }
    }
}

/// The elements that can replace an element e of a basis b: e itself, and each f not in b such that exchanging e
/// for f gives a basis.
fn in_place_of(map: &WholeMap, b: Subset, e: u8) -> Subset
    requires n { b.n ≡ map.now.elements }
    requires basis { IsBasis map.now b.elements }
    requires e_low { 1 ≤ e }
    requires e_high { e ≤ map.now.elements }
    requires inside { IsMember e b.elements }
    ensures n { result.n ≡ map.now.elements }
    ensures each { (f : ℕ) → IsMember f result.elements ↔ IsInPlace map.now b.elements e f }
{
    let rest = b.without(e);
    let mut others = Subset::from_mask(0, map.raw.elements).with(e);
    for f in 1..map.raw.elements + 1 {
        if !b.has(f) && is_basis(map, rest.with(f)) {
            others = others.with(f);
        }
    }
    others
}
