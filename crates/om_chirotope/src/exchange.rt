//! Whether the bases of a map have exchange, found by marks of the sets that contain a basis.

ghost use Rattle.std.specs.Prelude.{◌≡◌, ◌-◌, ◌*◌, ◌≤◌, ◌^◌, ◌↔◌, length, IsTrue};
ghost use Rattle.om_subsets.specs.Subsets.{choose};
ghost use Rattle.om_chirotope.specs.declared.marking.TheConstants.{WORD_BITS};
ghost use Rattle.om_chirotope.specs.Map.{map_of, cocircuit_vectors};
ghost use Rattle.om_chirotope.specs.ThreeTerm.{HasExchange, HasListExchange};
ghost use Rattle.om_chirotope.specs.Pictures.{AreMarkedAbove, IsMet};

use super::marking::{
    FEW_WORDS, MANY_WORDS, MOST_WORDS, WORDS, is_marked, mark_sets, number_of_words,
};
use super::whole_map::WholeMap;
use om_signs::{MAX_ELEMENTS, MAX_PLACES, RawMap, SignVec};
use om_subsets::Subset;

/// Whether the bases of a map have exchange. Let e be an element of a basis B that isn't in a basis C. Then e can
/// be exchanged for some element f of C that isn't in B. A basis is a set of as many elements as the rank whose
/// value isn't 0. A map without a basis has exchange.
///
/// There are from 1 to [`MAX_PLACES`] elements, the rank is at most their number, and each increasing list of as
/// many elements as the rank has a sign. The call allocates no memory: its table needs 256 KB of stack.
///
/// Source: Björner, Las Vergnas, Sturmfels, White and Ziegler, *Oriented Matroids*, chapter 3.
pub fn has_exchange(raw: &RawMap) -> bool
    requires low { 1 ≤ raw.now.elements }
    requires high { raw.now.elements ≤ MAX_PLACES }
    requires rank { raw.now.rank ≤ raw.now.elements }
    requires whole { length raw.now.signs ≡ choose raw.now.elements raw.now.rank }
    ensures { IsTrue result ↔ HasExchange (map_of raw.now) }
{
    if raw.rank == 0 {
        return true;
    }
    let map = &WholeMap { raw };
    has_exchange_of_lists(map)
}

/// Whether bases have exchange, in its form for lists, for a rank above 0.
fn has_exchange_of_lists(map: &WholeMap) -> bool
    requires { 1 ≤ map.now.rank }
    ensures { IsTrue result ↔ HasListExchange map.now }
{
    let words = number_of_words(map.raw.elements);
    if words > MANY_WORDS {
        return has_exchange_with_table::<MOST_WORDS>(map);
    }
    if words > FEW_WORDS {
        return has_exchange_with_table::<MANY_WORDS>(map);
    }
    has_exchange_with_table::<FEW_WORDS>(map)
}

/// `has_exchange_of_lists`, with a table of so many words for the marks of the sets. It is never inlined, so that small
/// maps don't pay for the tables of large ones.
#[inline(never)]
fn has_exchange_with_table<const SIZE: usize>(map: &WholeMap) -> bool
    requires rank_low { 1 ≤ map.now.rank }
    requires room { 2 ^ map.now.elements ≤ WORD_BITS * SIZE }
    requires small { SIZE ≤ MOST_WORDS }
    ensures { IsTrue result ↔ HasListExchange map.now }
{
    let mut table = [0u64; SIZE];
    let marks = &mut table[..number_of_words(map.raw.elements)];
    mark_sets(map, marks);
    each_vector_is_met(map, marks)
}

/// Whether each basis has an element in the support of each nonzero vector U, found with marks of the sets that
/// contain a basis. The vectors U are computed one after the other.
fn each_vector_is_met(map: &WholeMap, marks: &[u64]) -> bool
    requires rank_low { 1 ≤ map.now.rank }
    requires marked { AreMarkedAbove map.now marks.now }
    ensures { IsTrue result ↔ HasListExchange map.now }
{
    for a in Subset::all(map.raw.rank - 1, map.raw.elements) {
        if !is_met(map, marks, map.cocircuit_of(a)) {
            return false;
        }
    }
    true
}

/// Whether bases have exchange, in its form for lists, found with a table of the vectors U, for at most
/// [`MAX_ELEMENTS`] elements.
pub fn has_list_exchange(map: &WholeMap, cocircuits: &[SignVec]) -> bool
    requires high { map.now.elements ≤ MAX_ELEMENTS }
    requires rank_low { 1 ≤ map.now.rank }
    requires filled { cocircuits.now ≡ cocircuit_vectors map.now }
    ensures { IsTrue result ↔ HasListExchange map.now }
{
    let words = number_of_words(map.raw.elements);
    if words > MANY_WORDS {
        return has_list_exchange_with_table::<WORDS>(map, cocircuits);
    }
    if words > FEW_WORDS {
        return has_list_exchange_with_table::<MANY_WORDS>(map, cocircuits);
    }
    has_list_exchange_with_table::<FEW_WORDS>(map, cocircuits)
}

/// `has_list_exchange`, with a table of so many words for the marks of the sets. It is never inlined either.
#[inline(never)]
fn has_list_exchange_with_table<const SIZE: usize>(map: &WholeMap, cocircuits: &[SignVec]) -> bool
    requires rank_low { 1 ≤ map.now.rank }
    requires filled { cocircuits.now ≡ cocircuit_vectors map.now }
    requires room { 2 ^ map.now.elements ≤ WORD_BITS * SIZE }
    requires small { SIZE ≤ MOST_WORDS }
    ensures { IsTrue result ↔ HasListExchange map.now }
{
    let mut table = [0u64; SIZE];
    let marks = &mut table[..number_of_words(map.raw.elements)];
    mark_sets(map, marks);
    each_basis_meets_each(map, cocircuits, marks)
}

/// Whether each basis has an element in the support of each nonzero vector U of the table.
fn each_basis_meets_each(map: &WholeMap, cocircuits: &[SignVec], marks: &[u64]) -> bool
    requires rank_low { 1 ≤ map.now.rank }
    requires filled { cocircuits.now ≡ cocircuit_vectors map.now }
    requires marked { AreMarkedAbove map.now marks.now }
    ensures { IsTrue result ↔ HasListExchange map.now }
{
    for u in cocircuits {
        if !is_met(map, marks, *u) {
            return false;
        }
    }
    true
}

/// Whether a vector is zero, or each basis has an element in its support. The latter holds exactly if the set of
/// the elements off the support isn't marked.
fn is_met(map: &WholeMap, marks: &[u64], u: SignVec) -> bool
    requires length { length u ≡ map.now.elements }
    requires marked { AreMarkedAbove map.now marks.now }
    ensures { IsTrue result ↔ IsMet map.now u }
{
    let support = u.support();
    if support == 0 {
        return true;
    }
    let all = (1u32 << map.raw.elements) - 1;
    if is_marked(marks, all & !support) {
        return false;
    }
    true
}
