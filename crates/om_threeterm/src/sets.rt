//! Sets of elements: all sets of one size, which of them are bases, and the elements of a set of four.

ghost use Rattle.std.specs.Prelude.{◌≡◌, ◌+◌, ◌<◌, ◌≤◌, ◌↔◌, ◌∷◌, [], length, take, IsTrue};
ghost use Rattle.om_subsets.specs.Subsets.{choose, subset_at, IsSubsetFrom};
ghost use Rattle.om_chirotope.specs.ThreeTerm.{IsBasis};
ghost use Rattle.om_threeterm.specs.Sets.{all_chosen};

use om_chirotope::WholeMap;
use om_signs::{MAX_PLACES, MAX_VALUES, Sign};
use om_subsets::Subset;

/// The size of a table of sets of one size: one for each value of the largest map of a document.
pub const ROOM: usize = MAX_VALUES as usize;

/// Fills the table with the first sets of `size` of the elements 1 to `elements`, in lexicographic order.
pub fn fill(elements: u8, size: u8, table: &mut [Subset])
    requires high { elements ≤ MAX_PLACES }
    requires few { length table.old ≤ ROOM }
    requires room { length table.old ≤ choose elements size }
    ensures { table.new ≡ take (length table.old) (all_chosen elements size) }
{
    for (place, set) in Subset::all(size, elements).enumerate() {
        if place == table.len() {
            return;
        }
        table[place] = set;
    }
}

/// Whether a set of as many elements as the rank is a basis.
pub fn is_basis(map: &WholeMap, s: Subset) -> bool
    requires n { s.n ≡ map.now.elements }
    requires size { length s.elements ≡ map.now.rank }
    ensures { IsTrue result ↔ IsBasis map.now s.elements }
{
    is_nonzero(map.sign_at(s))
}

/// Whether the set at place k, of as many elements as the rank, is a basis.
pub fn is_basis_at(map: &WholeMap, k: usize) -> bool
    requires { k < choose map.now.elements map.now.rank }
    ensures { IsTrue result ↔ IsBasis map.now (subset_at map.now.elements map.now.rank k) }
{
    is_nonzero(map.raw.signs.at(k))
}

/// Whether the sign isn't 0.
fn is_nonzero(sign: Sign) -> bool
    ensures { IsTrue result ↔ (sign ≡ Sign.Zero → ⊥) }
{
    sign != Sign::Zero
}

/// The elements of a set of four, in increasing order.
pub fn four_of(q: Subset) -> (u8, u8, u8, u8)
    requires { length q.elements ≡ 4 }
    ensures elements { q.elements ≡ result.0 ∷ result.1 ∷ result.2 ∷ result.3 ∷ [] }
    ensures list { IsSubsetFrom 1 q.n q.elements }
{
    let (a, after_a) = split_least(q);
    let (b, after_b) = split_least(after_a);
    let (c, after_c) = split_least(after_b);
    let (d, _) = split_least(after_c);
    (a, b, c, d)
}

/// The least element of a set, and the set of the other elements.
fn split_least(s: Subset) -> (u8, Subset)
    requires { 1 ≤ length s.elements }
    ensures elements { s.elements ≡ result.0 ∷ result.1.elements }
    ensures list { IsSubsetFrom 1 s.n s.elements }
{
    let n = s.n();
    let mask = s.mask();
    let least = mask.trailing_zeros() as u8 + 1;
    (least, Subset::from_mask(mask & (mask - 1), n))
}
