//! The three-term test: a fast way to see that all pairs of sign vectors are orthogonal.

ghost use Rattle.std.specs.Prelude.{ℕ, ◌≡◌, ◌+◌, ◌-◌, ◌<◌, ◌≤◌, ◌^◌, ◌↔◌, ◌∷◌, ◌++◌, length, replicate, take, IsTrue};
ghost use Rattle.std.specs.Prelude.{[], map};
ghost use Rattle.std.specs.Int.{bit_at};
ghost use Rattle.std.proofs.Math.ListN.{get_or};
ghost use Rattle.om_signs.specs.Sign.{opposite, product};
ghost use Rattle.om_signs.specs.SignVec.{at, at_element, IsMaskOf, IsPlus, IsMinus};
ghost use Rattle.om_subsets.specs.Subsets.{choose, rank_of, IsMember, IsSubsetFrom, with_element};
ghost use Rattle.om_laws.specs.ThreeTerm.{AreBalanced};
ghost use Rattle.om_chirotope.specs.Map.{map_of, cocircuit_vector, cocircuit_vectors};
ghost use Rattle.om_chirotope.specs.Chirotope.{HasOrthogonalPairs};
ghost use Rattle.om_chirotope.specs.ThreeTerm.{HasThreeTermRelations};
ghost use Rattle.om_chirotope.specs.Pictures.{AreLong, AreRowsBelow, HasRelationsAt, IsLive, IsTriple};

use super::cocircuit_table::{FEW, MANY, ROOM, cocircuit_at, fill};
use super::exchange::has_list_exchange;
use super::walking::places_with;
use super::whole_map::WholeMap;
use om_signs::{MAX_ELEMENTS, MAX_PLACES, RawMap, Sign, SignVec};
use om_subsets::Subset;

/// The number of rows of a picture: one for each element.
const ROWS: usize = MAX_PLACES as usize;

/// Whether every pair of sign vectors of the map is orthogonal, found by the three-term test: whether bases have
/// exchange, and the three-term relations hold.
pub fn meets_test(map: &WholeMap, cocircuits: &[SignVec]) -> bool
    requires high { map.now.elements ≤ MAX_ELEMENTS }
    requires rank_low { 1 ≤ map.now.rank }
    requires rank_high { map.now.rank < map.now.elements }
    requires filled { cocircuits.now ≡ cocircuit_vectors map.now }
    ensures { IsTrue result ↔ HasOrthogonalPairs map.now }
{
    // what holds of every whole map
    let _raw = map.raw;
    has_list_exchange(map, cocircuits) && has_relations(map, cocircuits)
}

/// Whether the three-term relations of a map hold. Let P be an increasing list of two elements less than the rank,
/// and a, b, c and d four increasing elements off it. Take values of P with two of these. Then three products of
/// them are all 0, or include a plus and a minus: ab times cd, the negative of ac times bd, and ad times bc. In
/// ranks 0 and 1 there is no P, so the relations hold.
///
/// There are from 1 to [`MAX_PLACES`] elements, the rank is at most their number, and each increasing list of as
/// many elements as the rank has a sign. The call allocates no memory: its tables need up to 345 KB of stack.
///
/// Source: Björner, Las Vergnas, Sturmfels, White and Ziegler, *Oriented Matroids*, chapter 3.
pub fn has_three_term_relations(raw: &RawMap) -> bool
    requires low { 1 ≤ raw.now.elements }
    requires high { raw.now.elements ≤ MAX_PLACES }
    requires rank { raw.now.rank ≤ raw.now.elements }
    requires whole { length raw.now.signs ≡ choose raw.now.elements raw.now.rank }
    ensures { IsTrue result ↔ HasThreeTermRelations (map_of raw.now) }
{
    if raw.rank == 0 {
        return true;
    }
    let map = &WholeMap { raw };
    let count = Subset::choose(raw.elements, raw.rank - 1) as usize;
    if count > ROOM {
        return has_relations(map, &[]);
    }
    if count > MANY {
        return has_relations_with_table::<ROOM>(map);
    }
    if count > FEW {
        return has_relations_with_table::<MANY>(map);
    }
    has_relations_with_table::<FEW>(map)
}

/// `has_three_term_relations`, with a table that has room for so many vectors U. It is never inlined, so that small
/// maps don't pay for the tables of large ones.
#[inline(never)]
fn has_relations_with_table<const SIZE: usize>(map: &WholeMap) -> bool
    requires rank_low { 1 ≤ map.now.rank }
    requires fits { choose map.now.elements (map.now.rank - 1) ≤ SIZE }
    requires small { SIZE ≤ ROOM }
    ensures { IsTrue result ↔ HasThreeTermRelations map.now }
{
    let mut table = [SignVec::zero(map.raw.elements); SIZE];
    let cocircuits = &mut table[..Subset::choose(map.raw.elements, map.raw.rank - 1) as usize];
    fill(map, cocircuits);
    has_relations(map, cocircuits)
}

/// `has_three_term_relations`, with a table of the first vectors U; those beyond its end are computed anew.
fn has_relations<'a>(map: &'a WholeMap<'a>, cocircuits: &'a [SignVec]) -> bool
    requires { cocircuits.now ≡ take (length cocircuits.now) (cocircuit_vectors map.now) }
    ensures { IsTrue result ↔ HasThreeTermRelations map.now }
{
    if map.raw.rank < 2 {
        return true;
    }
    Subset::all(map.raw.rank - 2, map.raw.elements).all(|p| has_relations_at(map, cocircuits, p))
}

/// Whether the three-term relations of a list P of two elements less than the rank hold.
fn has_relations_at<'a>(map: &'a WholeMap<'a>, cocircuits: &'a [SignVec], p: Subset) -> bool
    requires filled { cocircuits.now ≡ take (length cocircuits.now) (cocircuit_vectors map.now) }
    requires n { p.n ≡ map.now.elements }
    requires size { length p.elements + 2 ≡ map.now.rank }
    ensures { IsTrue result ↔ HasRelationsAt map.now p.elements }
{
    Picture { map, cocircuits, p }.has_relations()
}

/// The picture of a list P of two elements less than the rank, with a table of the first vectors U of the map. Its row
/// of x has at each y the value of P followed by x and y.
#[derive(Drop)]
struct Picture<'a> {
    map: &'a WholeMap<'a>,
    cocircuits: &'a [SignVec],
    p: Subset,
    ghost rank: { length p.elements + 2 ≡ map.now.rank },
    ghost n: { p.n ≡ map.now.elements },
    ghost filled: { cocircuits.now ≡ take (length cocircuits.now) (cocircuit_vectors map.now) },
}

impl Picture<'_> {
    /// Whether the three-term relations of P hold. If the relations of the first nonzero row with any two later ones
    /// hold, all do.
    fn has_relations(&self) -> bool
        ensures { IsTrue result ↔ HasRelationsAt self.now.map.now self.now.p.elements }
    {
        let map = self.map;
        let mut rows = [SignVec::zero(map.raw.elements); ROWS];
        self.fill(&mut rows);
        let live = live_rows(&rows, map.raw.elements);
        if live == 0 {
            return true;
        }
        let first = live.trailing_zeros();
        are_balanced_from(&rows, map.raw.elements, first, live & !(1u32 << first))
    }

    /// Writes the row of each element off P.
    fn fill(&self, rows: &mut [SignVec; ROWS])
        requires room { MAX_PLACES ≤ length rows.old }
        requires zero { (i : ℕ) → i < length rows.old
            → get_or rows.old i [] ≡ replicate self.now.map.now.elements Sign.Zero }
        ensures { AreRowsBelow self.now.map.now self.now.p.elements rows.new (self.now.map.now.elements + 1) }
    {
        let map = self.map;
        let places = places_with(self.p);
        for x in 1..map.raw.elements + 1 {
            if !self.p.has(x) {
                rows[x as usize - 1] = self.row_of(x, places[x as usize - 1]);
            }
        }
    }

    /// The row of an element x off P, found by the place of the set of P and x.
    fn row_of(&self, x: u8, place: u32) -> SignVec
        requires low { 1 ≤ x }
        requires high { x ≤ self.now.map.now.elements }
        requires off { IsMember x self.now.p.elements → ⊥ }
        requires list { IsSubsetFrom 1 self.now.map.now.elements self.now.p.elements }
        requires place { place ≡ rank_of self.now.p.n (with_element x self.now.p.elements) }
        ensures { result ≡ cocircuit_vector self.now.map.now (self.now.p.elements ++ x ∷ []) }
    {
        let vector = cocircuit_at(self.map, self.cocircuits, self.p.with(x), place);
        if self.p.odd_after(x) {
            vector.neg()
        } else {
            vector
        }
    }
}

/// The mask of the rows that aren't zero.
fn live_rows(rows: &[SignVec; ROWS], elements: u8) -> u32
    requires high { elements ≤ MAX_PLACES }
    requires rows { AreLong rows.now elements }
    ensures { IsMaskOf elements (λ i. IsLive rows.now i) result }
{
    let mut live = 0u32;
    for i in 0..elements {
        if rows[i as usize].support() != 0 {
            live |= 1u32 << i;
        }
    }
    live
}

/// Whether the relations of row x with any two rows of a mask hold.
fn are_balanced_from(rows: &[SignVec; ROWS], elements: u8, x: u32, later: u32) -> bool
    requires high { elements ≤ MAX_PLACES }
    requires rows { AreLong rows.now elements }
    requires x { x < elements }
    requires later { later < 2 ^ elements }
    ensures { IsTrue result ↔ ((j k : ℕ) → j < k → bit_at later j ≡ 1 → bit_at later k ≡ 1 → IsTriple rows.now x j k) }
{
    let mut rest = later;
    while rest != 0 {
        let y = rest.trailing_zeros();
        rest &= !(1u32 << y);
        if !are_balanced_with(rows, elements, x, y, rest) {
            return false;
        }
    }
    true
}

/// Whether the relations of rows x and y with each row of a mask hold.
fn are_balanced_with(rows: &[SignVec; ROWS], elements: u8, x: u32, y: u32, later: u32) -> bool
    requires high { elements ≤ MAX_PLACES }
    requires rows { AreLong rows.now elements }
    requires x { x < elements }
    requires y { y < elements }
    requires later { later < 2 ^ elements }
    ensures { IsTrue result ↔ ((k : ℕ) → bit_at later k ≡ 1 → IsTriple rows.now x y k) }
{
    let first = rows[x as usize];
    let second = rows[y as usize];
    let mut rest = later;
    while rest != 0 {
        let z = rest.trailing_zeros();
        if !are_balanced(first, second, rows[z as usize], y as u8 + 1, z as u8 + 1) {
            return false;
        }
        rest &= !(1u32 << z);
    }
    true
}

/// Whether the three-term relations of three rows with every fourth element hold. The rows are those of elements x,
/// y and z off a list P. The row of x has at each element w the value of P followed by x and w. The three vectors
/// have one length, and y and z are from 1 to this length.
///
/// Source: Björner, Las Vergnas, Sturmfels, White and Ziegler, *Oriented Matroids*, chapter 3.
pub fn are_balanced(first: SignVec, second: SignVec, third: SignVec, y: u8, z: u8) -> bool
    requires second { length second ≡ length first }
    requires third { length third ≡ length first }
    requires y_low { 1 ≤ y }
    requires y_high { y ≤ length first }
    requires z_low { 1 ≤ z }
    requires z_high { z ≤ length first }
    ensures { IsTrue result
        ↔ ((i : ℕ) → i < length first
        → AreBalanced (product (at_element first y) (at third i))
        (opposite (product (at_element first z) (at second i))) (product (at first i) (at_element second z))) }
{
    let u = scaled(first.get(y), third);
    let v = scaled(first.get(z).neg(), second);
    let w = scaled(second.get(z), first);
    u.0 | v.0 | w.0 == u.1 | v.1 | w.1
}

/// The masks of the pluses and of the minuses of the vector with each sign multiplied by s. It has no branch, since
/// nobody foresees which way it would go.
fn scaled(s: Sign, vector: SignVec) -> (u32, u32)
    ensures plus { IsMaskOf (length vector) (IsPlus (map (product s) vector)) result.0 }
    ensures minus { IsMaskOf (length vector) (IsMinus (map (product s) vector)) result.1 }
{
    let same = s.plus_bit();
    let turned = s.minus_bit();
    (
        same * vector.plus() + turned * vector.minus(),
        same * vector.minus() + turned * vector.plus(),
    )
}
