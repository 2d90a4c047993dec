//! The scan for violated three-term relations.

ghost use Rattle.std.specs.Prelude.{ℕ, List, ◌≡◌, ◌+◌, ◌-◌, ◌<◌, ◌≤◌, ◌↔◌, ◌∷◌, ◌++◌, [], length, IsTrue, IfNone};
ghost use Rattle.std.specs.Prelude.{IfSome};
ghost use Rattle.om_signs.specs.declared.limits.TheConstants.{MAX_PLACES};
ghost use Rattle.om_threeterm.specs.declared.relations.TheConstants.{FOUR};
ghost use Rattle.om_subsets.specs.Subsets.{choose, IsMember, IsSubsetFrom};
ghost use Rattle.om_laws.specs.ThreeTerm.{AreBalanced};
ghost use Rattle.om_chirotope.specs.Map.{value_of};
ghost use Rattle.om_chirotope.specs.ThreeTerm.{HasThreeTermRelations, IsFrame};
ghost use Rattle.om_threeterm.specs.Violations.{HasRelation, IsUnbalancedList, IsFirstUnbalanced, IsFirstUnbalancedOf};
ghost use Rattle.om_threeterm.specs.Sets.{all_chosen};

use super::sets::{fill, four_of};
use om_chirotope::{WholeMap, has_three_term_relations};
use om_parallel::{Probe, first_bad_by_cost};
use om_signs::{MAX_PLACES, Sign};
use om_subsets::Subset;
use std::thread::Threads;

/// The number of elements of a relation besides those of P.
const FOUR: u8 = 4;

/// The greatest number of elements of a map, as an index type.
const PLACES: usize = MAX_PLACES as usize;

/// The number of sets of [`FOUR`] of [`MAX_PLACES`] elements.
const FOURS: usize = PLACES * (PLACES - 1) * (PLACES - 2) * (PLACES - 3) / 24;

/// The first violated three-term relation: the set p of two elements less than the rank, and the set q of four
/// elements off p. None if the relations hold. The call allocates no memory.
pub fn first_unbalanced<R: Threads + Sync>(rt: &R, map: &WholeMap) -> Option<(Subset, Subset)>
    ensures none { IfNone result (HasThreeTermRelations map.now) }
    ensures first { IfSome result (λ x. IsFirstUnbalanced map.now x.0 x.1) }
{
    if has_relations_apart(map) {
        return None;
    }
    first_unbalanced_by_scan(rt, map)
}

/// Whether the relations hold, by the fast test. It is never inlined, so that its tables aren't on the stack while
/// the scan runs.
#[inline(never)]
fn has_relations_apart(map: &WholeMap) -> bool
    ensures { IsTrue result ↔ HasThreeTermRelations map.now }
{
    has_three_term_relations(map.raw)
}

/// The first violated relation, by a scan of all sets p. There is one.
#[inline(never)]
fn first_unbalanced_by_scan<R: Threads + Sync>(rt: &R, map: &WholeMap) -> Option<(Subset, Subset)>
    requires violated { HasThreeTermRelations map.now → ⊥ }
    ensures none { IfNone result (HasThreeTermRelations map.now) }
    ensures first { IfSome result (λ x. IsFirstUnbalanced map.now x.0 x.1) }
{
    if map.raw.rank < 2 {
        return None;
    }
    let mut room = [Subset::from_mask(0, map.raw.elements); FOURS];
    let count = number_of_fours(map.raw.elements);
    let fours = &mut room[..count];
    fill_fours(map.raw.elements, fours);
    first_unbalanced_among(rt, map, fours)
}

/// The number of sets of four of `elements` elements.
fn number_of_fours(elements: u8) -> usize
    requires { elements ≤ MAX_PLACES }
    ensures value { result ≡ choose elements FOUR }
    ensures few { result ≤ FOURS }
{
    Subset::choose(elements, FOUR) as usize
}

/// Fills the table with all sets of four of `elements` elements.
fn fill_fours(elements: u8, table: &mut [Subset])
    requires high { elements ≤ MAX_PLACES }
    requires few { length table.old ≤ FOURS }
    requires room { length table.old ≡ choose elements FOUR }
    ensures { table.new ≡ all_chosen elements FOUR }
{
    fill(elements, FOUR, table);
}

/// The time that it takes to test a relation, in nanoseconds.
const RELATION: u64 = 200;

/// A map, and the sets of four elements. The number of a set of two elements less than the rank is its place. It is
/// bad if some relation of this set is violated.
#[derive(Drop)]
struct Frames<'a> {
    map: &'a WholeMap<'a>,
    fours: &'a [Subset],
    ghost low: { 2 ≤ map.now.rank },
    ghost filled: { fours.now ≡ all_chosen map.now.elements FOUR },
}

impl Probe for Frames<'_> {
    ghost use Rattle.om_threeterm.specs.Sets.{IsUnbalancedAt};

    ghost is_bad = { λ s k. IsUnbalancedAt s.map.now k };

    fn bad(&self, k: u64) -> bool {
        let map = self.map;
        let size = map.raw.rank - 2;
        if k >= Subset::choose(map.raw.elements, size) as u64 {
            return false;
        }
        let p = Subset::unrank(k as u32, size, map.raw.elements);
        self.first_unbalanced_of(p).is_some()
    }
}

impl Frames<'_> {
    /// The first set q of four elements off a set p whose relation is violated, or None if those of p hold.
    fn first_unbalanced_of(&self, p: Subset) -> Option<Subset>
        requires n { p.n ≡ self.now.map.now.elements }
        requires list { IsSubsetFrom 1 self.now.map.now.elements p.elements }
        requires size { length p.elements + 2 ≡ self.now.map.now.rank }
        ensures none { IfNone result ((q : List ℕ) → IsUnbalancedList self.now.map.now p.elements q → ⊥) }
        ensures first { IfSome result (λ q. IsFirstUnbalancedOf self.now.map.now p.elements q) }
    {
        for q in self.fours {
            if is_unbalanced(self.map, p, *q) {
                return Some(*q);
            }
        }
        None
    }
}

/// The first violated relation, found with the sets of four elements.
fn first_unbalanced_among<R: Threads + Sync>(
    rt: &R,
    map: &WholeMap,
    fours: &[Subset],
) -> Option<(Subset, Subset)>
    requires low { 2 ≤ map.now.rank }
    requires few { length fours.now ≤ FOURS }
    requires filled { fours.now ≡ all_chosen map.now.elements FOUR }
    ensures none { IfNone result (HasThreeTermRelations map.now) }
    ensures first { IfSome result (λ x. IsFirstUnbalanced map.now x.0 x.1) }
{
    let frames = Frames { map, fours };
    let count = Subset::choose(map.raw.elements, map.raw.rank - 2) as u64;
    match first_bad_by_cost(rt, &frames, count, fours.len() as u64 * RELATION) {
        None => None,
        Some(k) => {
            let p = Subset::unrank(k as u32, map.raw.rank - 2, map.raw.elements);
            let q = frames.first_unbalanced_of(p)?;
            Some((p, q))
        }
    }
}

/// Whether four elements lie off a set p, and their relation is violated.
fn is_unbalanced(map: &WholeMap, p: Subset, q: Subset) -> bool
    requires p_n { p.n ≡ map.now.elements }
    requires p_list { IsSubsetFrom 1 map.now.elements p.elements }
    requires p_size { length p.elements + 2 ≡ map.now.rank }
    requires q_n { q.n ≡ map.now.elements }
    requires q_size { length q.elements ≡ 4 }
    ensures { IsTrue result ↔ IsUnbalancedList map.now p.elements q.elements }
{
    if !p.is_apart_from(q) {
        return false;
    }
    let (a, b, c, d) = four_of(q);
    !has_relation(map, p, a, b, c, d)
}

/// Whether the relation of p with four elements holds.
fn has_relation(map: &WholeMap, p: Subset, a: u8, b: u8, c: u8, d: u8) -> bool
    requires n { p.n ≡ map.now.elements }
    requires frame { IsFrame map.now p.elements a b c d }
    requires a_low { 1 ≤ a }
    requires a_b { a < b }
    requires b_c { b < c }
    requires c_d { c < d }
    requires d_high { d ≤ map.now.elements }
    ensures { IsTrue result ↔ HasRelation map.now p.elements a b c d }
{
    let first = value_with(map, p, a, b).times(value_with(map, p, c, d));
    let second = value_with(map, p, a, c).times(value_with(map, p, b, d));
    // Then the first is a plus and the negative of the second a minus, or the other way round.
    if first == second && first != Sign::Zero {
        return true;
    }
    let third = value_with(map, p, a, d).times(value_with(map, p, b, c));
    are_balanced(first, second.neg(), third)
}

/// The value of a set p followed by two elements off it.
fn value_with(map: &WholeMap, p: Subset, x: u8, y: u8) -> Sign
    requires n { p.n ≡ map.now.elements }
    requires list { IsSubsetFrom 1 map.now.elements p.elements }
    requires size { length p.elements + 2 ≡ map.now.rank }
    requires x_low { 1 ≤ x }
    requires order { x < y }
    requires y_high { y ≤ map.now.elements }
    requires x_off { IsMember x p.elements → ⊥ }
    requires y_off { IsMember y p.elements → ⊥ }
    ensures { result ≡ value_of map.now (p.elements ++ x ∷ y ∷ []) }
{
    let sign = map.sign_at(p.with(x).with(y));
    if p.odd_after(x) == p.odd_after(y) {
        sign
    } else {
        sign.neg()
    }
}

/// Whether three signs are all 0, or include a plus and a minus.
fn are_balanced(first: Sign, second: Sign, third: Sign) -> bool
    ensures { IsTrue result ↔ AreBalanced first second third }
{
    match first {
        Sign::Zero => second == third.neg(),
        Sign::Plus => second == Sign::Minus || third == Sign::Minus,
        Sign::Minus => second == Sign::Plus || third == Sign::Plus,
    }
}
