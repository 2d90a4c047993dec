//! The scan for pairs of sign vectors that aren't orthogonal.

ghost use Rattle.std.specs.Prelude.{ℕ, ◌≡◌, ◌+◌, ◌-◌, ◌<◌, ◌≤◌, ◌↔◌, length, IsTrue, IsNone, IfNone, IfSome};
ghost use Rattle.std.specs.Prelude.{[]};
ghost use Rattle.std.proofs.Math.ListN.{get_or};
ghost use Rattle.om_signs.specs.SignVec.{IsOrthogonal};
ghost use Rattle.om_subsets.specs.Subsets.{choose};
ghost use Rattle.om_chirotope.specs.Map.{map_of, cocircuit_vectors};
ghost use Rattle.om_chirotope.specs.Chirotope.{HasOrthogonalPairs, IsFirstViolated};
ghost use Rattle.om_chirotope.specs.Apart.{IsOrthogonalToAll, IsFirstApart};
ghost use Rattle.om_chirotope.specs.Settlement.{IsGivenTest, IsSettled, IsUnsettled};

use super::cocircuit_table::{FEW, MANY, ROOM, fill_while_orthogonal, first_apart_from};
use super::marking::WORDS;
use super::threaded_scan::scan_on_threads;
use super::three_terms::meets_test;
use super::whole_map::WholeMap;
use om_signs::{MAX_ELEMENTS, MAX_PLACES, RawMap, SignVec};
use om_subsets::{MOST_SUBSETS, Subset};
use std::thread::Threads;

/// The first pair, by S and then by A in lexicographic order, whose sign vectors V of S and U of A aren't
/// orthogonal. None if every pair is orthogonal. S has one element more than the rank, and A one less. In rank 0
/// there is no A, and if the rank is the number of elements there is no S, so every pair is orthogonal.
///
/// There are from 1 to [`MAX_PLACES`] elements, the rank is at most their number, and each increasing list of as
/// many elements as the rank has a sign. Whether some value isn't 0 isn't tested. The call allocates no memory: its
/// tables need up to 470 KB of stack.
pub fn violated(raw: &RawMap) -> Option<(Subset, Subset)>
    requires low { 1 ≤ raw.now.elements }
    requires high { raw.now.elements ≤ MAX_PLACES }
    requires rank { raw.now.rank ≤ raw.now.elements }
    requires whole { length raw.now.signs ≡ choose raw.now.elements raw.now.rank }
    ensures none { IsNone result ↔ HasOrthogonalPairs (map_of raw.now) }
    ensures first { IfSome result (λ p. IsFirstViolated (map_of raw.now) p.0 p.1) }
{
    if raw.rank == 0 {
        return None;
    }
    if raw.rank == raw.elements {
        return None;
    }
    let map = &WholeMap { raw };
    let count = Subset::choose(raw.elements, raw.rank - 1) as usize;
    if count > ROOM {
        return scan_each(map);
    }
    if count > MANY {
        return violated_with_table::<ROOM>(map);
    }
    if count > FEW {
        return violated_with_table::<MANY>(map);
    }
    violated_with_table::<FEW>(map)
}

/// `violated`, with a table that has room for so many vectors U. It is never inlined, so that small maps don't pay for
/// the tables of large ones.
#[inline(never)]
fn violated_with_table<const SIZE: usize>(map: &WholeMap) -> Option<(Subset, Subset)>
    requires rank_low { 1 ≤ map.now.rank }
    requires rank_high { map.now.rank < map.now.elements }
    requires fits { choose map.now.elements (map.now.rank - 1) ≤ SIZE }
    requires small { SIZE ≤ ROOM }
    ensures none { IsNone result ↔ HasOrthogonalPairs map.now }
    ensures first { IfSome result (λ p. IsFirstViolated map.now p.0 p.1) }
{
    let mut table = [SignVec::zero(map.raw.elements); SIZE];
    let cocircuits = &mut table[..Subset::choose(map.raw.elements, map.raw.rank - 1) as usize];
    match settle(map, cocircuits) {
        Settled::Orthogonal => None,
        Settled::Violated { s, a } => Some((s, a)),
        Settled::Open => scan(map, cocircuits),
    }
}

/// `violated`, with the scan distributed among threads.
pub fn violated_on_threads<R: Threads + Sync>(rt: &R, raw: &RawMap) -> Option<(Subset, Subset)>
    requires low { 1 ≤ raw.now.elements }
    requires high { raw.now.elements ≤ MAX_PLACES }
    requires rank { raw.now.rank ≤ raw.now.elements }
    requires whole { length raw.now.signs ≡ choose raw.now.elements raw.now.rank }
    ensures none { IsNone result ↔ HasOrthogonalPairs (map_of raw.now) }
    ensures first { IfSome result (λ p. IsFirstViolated (map_of raw.now) p.0 p.1) }
{
    if raw.rank == 0 {
        return None;
    }
    if raw.rank == raw.elements {
        return None;
    }
    let map = &WholeMap { raw };
    let count = Subset::choose(raw.elements, raw.rank - 1) as usize;
    if count > ROOM {
        return scan_each(map);
    }
    if count > MANY {
        return violated_with_table_on_threads::<R, ROOM>(rt, map);
    }
    if count > FEW {
        return violated_with_table_on_threads::<R, MANY>(rt, map);
    }
    violated_with_table_on_threads::<R, FEW>(rt, map)
}

/// `violated_on_threads`, with a table that has room for so many vectors U. It is never inlined either.
#[inline(never)]
fn violated_with_table_on_threads<R: Threads + Sync, const SIZE: usize>(
    rt: &R,
    map: &WholeMap,
) -> Option<(Subset, Subset)>
    requires rank_low { 1 ≤ map.now.rank }
    requires rank_high { map.now.rank < map.now.elements }
    requires fits { choose map.now.elements (map.now.rank - 1) ≤ SIZE }
    requires small { SIZE ≤ ROOM }
    ensures none { IsNone result ↔ HasOrthogonalPairs map.now }
    ensures first { IfSome result (λ p. IsFirstViolated map.now p.0 p.1) }
{
    let mut table = [SignVec::zero(map.raw.elements); SIZE];
    let cocircuits = &mut table[..Subset::choose(map.raw.elements, map.raw.rank - 1) as usize];
    match settle(map, cocircuits) {
        Settled::Orthogonal => None,
        Settled::Violated { s, a } => Some((s, a)),
        Settled::Open => scan_on_threads(rt, map, cocircuits),
    }
}

/// What is known about a map before its pairs are scanned.
enum Settled {
    /// Every pair is orthogonal.
    Orthogonal,
    /// This is the first violated pair.
    Violated { s: Subset, a: Subset },
    /// Neither is known.
    Open,
}

/// What the pairs of the first set S, and then the three-term test, show about a map. The call fills the table with
/// the vectors U of all sets of one element less than the rank, unless the first set S has a violated pair.
fn settle(map: &WholeMap, cocircuits: &mut [SignVec]) -> Settled
    requires rank_low { 1 ≤ map.now.rank }
    requires rank_high { map.now.rank < map.now.elements }
    requires room { length cocircuits.old ≡ choose map.now.elements (map.now.rank - 1) }
    ensures { IsSettled map.now cocircuits.new result }
{
    let s = Subset::first(map.raw.rank + 1, map.raw.elements);
    if let Some(a) = fill_while_orthogonal(map, map.circuit_of(s), cocircuits) {
        return Settled::Violated { s, a };
    }
    if is_given_test(map) && meets_test(map, cocircuits) {
        return Settled::Orthogonal;
    }
    Settled::Open
}

/// Whether a map is given the three-term test: it is on at most [`MAX_ELEMENTS`] elements, and there are more pairs of
/// a set S and a set A than sets of elements, or than words for the marks of these sets.
fn is_given_test(map: &WholeMap) -> bool
    requires rank_low { 1 ≤ map.now.rank }
    requires rank_high { map.now.rank < map.now.elements }
    ensures { IsTrue result ↔ IsGivenTest map.now }
{
    if map.raw.elements > MAX_ELEMENTS {
        return false;
    }
    let sets = u64::from(Subset::choose(map.raw.elements, map.raw.rank + 1));
    let cosets = u64::from(Subset::choose(map.raw.elements, map.raw.rank - 1));
    sets * cosets > (1u64 << map.raw.elements).min(WORDS as u64)
}

/// The first violated pair, found with the vectors U of all sets of one element less than the rank. A map that is given
/// the three-term test is scanned only if it fails.
fn scan(map: &WholeMap, cocircuits: &[SignVec]) -> Option<(Subset, Subset)>
    requires rank_low { 1 ≤ map.now.rank }
    requires rank_high { map.now.rank < map.now.elements }
    requires few { length cocircuits.now ≤ MOST_SUBSETS }
    requires filled { cocircuits.now ≡ cocircuit_vectors map.now }
    requires unsettled { IsUnsettled map.now }
    ensures none { IsNone result ↔ HasOrthogonalPairs map.now }
    ensures first { IfSome result (λ p. IsFirstViolated map.now p.0 p.1) }
{
    for s in Subset::all(map.raw.rank + 1, map.raw.elements) {
        if let Some(a) = first_apart_in(map, map.circuit_of(s), cocircuits) {
            return Some((s, a));
        }
    }
    None
}

/// The first set of one element less than the rank, in lexicographic order, whose vector U isn't orthogonal to a
/// given vector. None if all are orthogonal. The table has the vectors U of all these sets.
fn first_apart_in(map: &WholeMap, vector: SignVec, cocircuits: &[SignVec]) -> Option<Subset>
    requires rank_low { 1 ≤ map.now.rank }
    requires few { length cocircuits.now ≤ MOST_SUBSETS }
    requires filled { cocircuits.now ≡ cocircuit_vectors map.now }
    requires vector { length vector ≡ map.now.elements }
    ensures none { IfNone result (IsOrthogonalToAll map.now vector) }
    ensures first { IfSome result (IsFirstApart map.now vector) }
{
    let k = first_not_orthogonal(vector, cocircuits, 0, cocircuits.len())?;
    Some(Subset::unrank(k as u32, map.raw.rank - 1, map.raw.elements))
}

/// The first violated pair, found with vectors U that are computed anew for each set S. This is for maps whose
/// vectors U have no room in the table; they have more values than a map of a document.
fn scan_each(map: &WholeMap) -> Option<(Subset, Subset)>
    requires rank_low { 1 ≤ map.now.rank }
    requires rank_high { map.now.rank < map.now.elements }
    requires no_room { ROOM < choose map.now.elements (map.now.rank - 1) }
    ensures none { IsNone result ↔ HasOrthogonalPairs map.now }
    ensures first { IfSome result (λ p. IsFirstViolated map.now p.0 p.1) }
{
    for s in Subset::all(map.raw.rank + 1, map.raw.elements) {
        if let Some(a) = first_apart_from(map, map.circuit_of(s)) {
            return Some((s, a));
        }
    }
    None
}

/// The place of the first vector of the table, from place `from` on and before `end`, that isn't orthogonal to a
/// given vector.
pub fn first_not_orthogonal(
    vector: SignVec,
    table: &[SignVec],
    from: usize,
    end: usize,
) -> Option<usize>
    requires part { from ≤ end }
    requires within { end ≤ length table.now }
    requires lengths { (k : ℕ) → k < length table.now → length vector ≡ length (get_or table.now k []) }
    ensures none { IfNone result ((k : ℕ) → from ≤ k → k < end → IsOrthogonal vector (get_or table.now k [])) }
    ensures low { IfSome result (λ k. from ≤ k) }
    ensures within { IfSome result (λ k. k < end) }
    ensures here { IfSome result (λ k. IsOrthogonal vector (get_or table.now k []) → ⊥) }
    ensures before { IfSome result (λ k. (j : ℕ) → from ≤ j → j < k → IsOrthogonal vector (get_or table.now j [])) }
{
    for k in from..end {
        if !vector.orthogonal(table[k]) {
            return Some(k);
        }
    }
    None
}
