//! The scan for pairs of sign vectors that aren't orthogonal, on several threads.

ghost use Rattle.std.specs.Prelude.{ℕ, ◌≡◌, ◌+◌, ◌-◌, ◌*◌, ◌<◌, ◌≤◌, ◌↔◌, [], length, IsNone, IsSome, IfNone, IfSome};
ghost use Rattle.std.proofs.Math.ListN.{get_or};
ghost use Rattle.om_signs.specs.SignVec.{IsOrthogonal};
ghost use Rattle.om_chirotope.specs.Map.{circuit_vector, cocircuit_vectors};
ghost use Rattle.om_chirotope.specs.Chirotope.{HasOrthogonalPairs, IsFirstViolated};
ghost use Rattle.om_subsets.specs.declared.binomials.TheConstants.{MOST_SUBSETS};
ghost use Rattle.om_chirotope.specs.declared.threaded_scan.TheConstants.{BLOCK};
ghost use Rattle.om_chirotope.specs.Settlement.{IsUnsettled};
ghost use Rattle.om_chirotope.specs.Blocks.{HasViolatedPair, IsInBlock};

use super::scan::first_not_orthogonal;
use super::whole_map::WholeMap;
use om_parallel::{Probe, first_bad_by_cost};
use om_signs::SignVec;
use om_subsets::{MOST_SUBSETS, Subset};
use std::thread::Threads;

/// How many vectors U one call compares.
pub const BLOCK: usize = 1_024;

/// How long it takes to compute the vector V of a set, in nanoseconds.
const VECTOR: u64 = 300;

/// How long it takes to test a pair of vectors, in nanoseconds.
const PAIR: u64 = 3;

/// The pairs of a map, numbered by S and then by blocks of sets A. A number is bad if the vector V of its set S
/// isn't orthogonal to the vector U of some set of its block.
#[derive(Drop)]
struct Blocks<'a> {
    map: &'a WholeMap<'a>,
    cocircuits: &'a [SignVec],
    blocks: u64,
    ghost rank_low: { 1 ≤ map.now.rank },
    ghost rank_high: { map.now.rank < map.now.elements },
    ghost few: { length cocircuits.now ≤ MOST_SUBSETS },
    ghost filled: { cocircuits.now ≡ cocircuit_vectors map.now },
    ghost some: { 1 ≤ blocks },
    ghost most: { blocks ≤ MOST_SUBSETS },
    ghost all: { length cocircuits.now ≤ blocks * BLOCK },
}

impl Probe for Blocks<'_> {
    ghost use Rattle.om_subsets.specs.declared.binomials.TheConstants.{MOST_SUBSETS};
    ghost use Rattle.om_chirotope.specs.declared.threaded_scan.TheConstants.{BLOCK};
    ghost use Rattle.om_chirotope.specs.Blocks.{HasViolatedPair};

    ghost is_bad = { λ p k. HasViolatedPair p.map.now p.blocks k };

    fn bad(&self, k: u64) -> bool {
        let map = self.map;
        let raw = map.raw;
        let place = k / self.blocks;
        if place >= u64::from(Subset::choose(raw.elements, raw.rank + 1)) {
            return false;
        }
        let s = Subset::unrank(place as u32, raw.rank + 1, raw.elements);
        self.first_in_block(s, k % self.blocks).is_some()
    }
}

impl Blocks<'_> {
    /// The place of the first vector U of a block that isn't orthogonal to the vector V of s.
    fn first_in_block(&self, s: Subset, block: u64) -> Option<usize>
        requires n { s.n ≡ self.now.map.now.elements }
        requires size { length s.elements ≡ self.now.map.now.rank + 1 }
        requires small { block ≤ MOST_SUBSETS }
        ensures none { IfNone result ((j : ℕ) → IsInBlock (length self.now.cocircuits.now) block j
            → IsOrthogonal (circuit_vector self.now.map.now s.elements)
            (get_or self.now.cocircuits.now j [])) }
        ensures within { IfSome result (λ j. IsInBlock (length self.now.cocircuits.now) block j) }
        ensures here { IfSome result (λ j. IsOrthogonal (circuit_vector self.now.map.now s.elements)
            (get_or self.now.cocircuits.now j []) → ⊥) }
        ensures before { IfSome result (λ k. (j : ℕ) → IsInBlock (length self.now.cocircuits.now) block j → j < k
            → IsOrthogonal (circuit_vector self.now.map.now s.elements)
            (get_or self.now.cocircuits.now j [])) }
    {
        let from = block as usize * BLOCK;
        let end = (from + BLOCK).min(self.cocircuits.len());
        if from >= end {
            return None;
        }
        first_not_orthogonal(self.map.circuit_of(s), self.cocircuits, from, end)
    }

    /// The first violated pair of the least bad number k.
    fn pair_of(&self, k: u64) -> Option<(Subset, Subset)>
        requires bad { HasViolatedPair self.now.map.now self.now.blocks k }
        requires earlier { (j : ℕ) → j < k → HasViolatedPair self.now.map.now self.now.blocks j → ⊥ }
        ensures some { IsSome result }
        ensures first { IfSome result (λ p. IsFirstViolated self.now.map.now p.0 p.1) }
    {
        let map = self.map;
        let raw = map.raw;
        let s = Subset::unrank((k / self.blocks) as u32, raw.rank + 1, raw.elements);
        match self.first_in_block(s, k % self.blocks) {
            None => None,
            Some(place) => Some((s, Subset::unrank(place as u32, raw.rank - 1, raw.elements))),
        }
    }
}

/// The first violated pair, found with the vectors U of all sets of one element less than the rank. A map that is given
/// the three-term test is scanned only if it fails.
pub fn scan_on_threads<R: Threads + Sync>(
    rt: &R,
    map: &WholeMap,
    cocircuits: &[SignVec],
) -> Option<(Subset, Subset)>
    requires rank_low { 1 ≤ map.now.rank }
    requires rank_high { map.now.rank < map.now.elements }
    requires few { length cocircuits.now ≤ MOST_SUBSETS }
    requires filled { cocircuits.now ≡ cocircuit_vectors map.now }
    requires unsettled { IsUnsettled map.now }
    ensures none { IsNone result ↔ HasOrthogonalPairs map.now }
    ensures first { IfSome result (λ p. IsFirstViolated map.now p.0 p.1) }
{
    let blocks = (cocircuits.len() / BLOCK) as u64 + 1;
    let probe = Blocks {
        map,
        cocircuits,
        blocks,
    };
    let sets = Subset::choose(map.raw.elements, map.raw.rank + 1);
    let cost = VECTOR + cocircuits.len().min(BLOCK) as u64 * PAIR;
    match first_bad_by_cost(rt, &probe, u64::from(sets) * blocks, cost) {
        None => None,
        Some(k) => probe.pair_of(k),
    }
}
