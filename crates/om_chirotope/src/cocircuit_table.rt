//! The table of the vectors U of a map.

ghost use Rattle.std.specs.Prelude.{◌≡◌, ◌+◌, ◌-◌, ◌≤◌, length, take, IfNone, IfSome};
ghost use Rattle.om_signs.specs.SignVec.{IsOrthogonal};
ghost use Rattle.om_subsets.specs.Subsets.{choose, rank_of, IsSubsetFrom};
ghost use Rattle.om_chirotope.specs.Map.{cocircuit_vector, cocircuit_vectors};
ghost use Rattle.om_chirotope.specs.Apart.{IsOrthogonalToAll, IsFirstApart};

use super::whole_map::WholeMap;
use om_signs::{MAX_ELEMENTS, SignVec};
use om_subsets::Subset;

/// The size of the table: 27,132, which is choose(19, 13). Consider all maps on at most 20 elements with at most
/// 12,870 values. Those of rank 14 on 19 elements have the most sets of one element less than the rank.
pub const ROOM: usize = 27_132;

/// The size of the table for middle maps: the number of sets of three of [`MAX_ELEMENTS`] elements.
pub const MANY: usize = FEW * (MAX_ELEMENTS as usize - 2) / 3;

/// The size of the table for small maps: the number of sets of two of [`MAX_ELEMENTS`] elements. So the maps of rank 3
/// are small.
pub const FEW: usize = MAX_ELEMENTS as usize * (MAX_ELEMENTS as usize - 1) / 2;

/// Fills the table with the vectors U of all sets of one element less than the rank, in lexicographic order.
pub fn fill(map: &WholeMap, table: &mut [SignVec])
    requires rank_low { 1 ≤ map.now.rank }
    requires room { length table.old ≡ choose map.now.elements (map.now.rank - 1) }
    ensures { table.new ≡ cocircuit_vectors map.now }
{
    for (place, a) in Subset::all(map.raw.rank - 1, map.raw.elements).enumerate() {
        table[place] = map.cocircuit_of(a);
    }
}

/// The vector U of a set of one element less than the rank. It is taken from a table of the first of these vectors,
/// by the place of the set, or computed anew if the table ends before this place.
pub fn cocircuit_at(map: &WholeMap, table: &[SignVec], a: Subset, place: u32) -> SignVec
    requires n { a.n ≡ map.now.elements }
    requires size { length a.elements + 1 ≡ map.now.rank }
    requires filled { table.now ≡ take (length table.now) (cocircuit_vectors map.now) }
    requires list { IsSubsetFrom 1 a.n a.elements }
    requires place { place ≡ rank_of a.n a.elements }
    ensures { result ≡ cocircuit_vector map.now a.elements }
{
    if (place as usize) < table.len() {
        return table[place as usize];
    }
    map.cocircuit_of(a)
}

/// Fills the table with the vectors U of all sets of one element less than the rank, in lexicographic order. It
/// stops at the first that isn't orthogonal to a given vector. Returns the set of this one, or None if all are
/// orthogonal.
pub fn fill_while_orthogonal(
    map: &WholeMap,
    vector: SignVec,
    table: &mut [SignVec],
) -> Option<Subset>
    requires rank_low { 1 ≤ map.now.rank }
    requires room { length table.old ≡ choose map.now.elements (map.now.rank - 1) }
    requires vector { length vector ≡ map.now.elements }
    ensures none { IfNone result (table.new ≡ cocircuit_vectors map.now) }
    ensures first { IfSome result (IsFirstApart map.now vector) }
{
    for (place, a) in Subset::all(map.raw.rank - 1, map.raw.elements).enumerate() {
        let other = map.cocircuit_of(a);
        if !vector.orthogonal(other) {
            return Some(a);
        }
        table[place] = other;
    }
    None
}

/// The first set of one element less than the rank, in lexicographic order, whose vector U isn't orthogonal to a
/// given vector. None if all are orthogonal. It needs no table.
pub fn first_apart_from(map: &WholeMap, vector: SignVec) -> Option<Subset>
    requires rank_low { 1 ≤ map.now.rank }
    requires vector { length vector ≡ map.now.elements }
    ensures none { IfNone result (IsOrthogonalToAll map.now vector) }
    ensures first { IfSome result (IsFirstApart map.now vector) }
{
    for a in Subset::all(map.raw.rank - 1, map.raw.elements) {
        if !vector.orthogonal(map.cocircuit_of(a)) {
            return Some(a);
        }
    }
    None
}
