//! The places of the sets that have one element more than a given set.

ghost use Rattle.std.specs.Prelude.{ℕ, ◌≡◌, ◌+◌, ◌-◌, ◌≤◌};
ghost use Rattle.std.proofs.Math.ListN.{get_or};
ghost use Rattle.om_subsets.specs.Subsets.{rank_of, IsMember, IsSubsetFrom, with_element};

use om_signs::MAX_PLACES;
use om_subsets::Subset;

/// The number of places: one for each element.
pub const PLACES: usize = MAX_PLACES as usize;

/// The places of the sets that have one element more than the set. For each element e that isn't in the set, the
/// result has at e - 1 the place of the set with e. This is its place in the lexicographic order of the sets of its
/// size.
pub fn places_with(set: Subset) -> [u32; PLACES]
    ensures places { (e : ℕ) → 1 ≤ e → e ≤ set.n → (IsMember e set.elements → ⊥)
        → get_or result (e - 1) 0 ≡ rank_of set.n (with_element e set.elements) }
    ensures list { IsSubsetFrom 1 set.n set.elements }
{
    let mut places = [0u32; PLACES];
    let mut left = set.size();
    // how many sets come from this one on; and, for all elements so far together, how many sets have the same elements
    // before it, and lack it
    let later = Subset::choose(set.n(), left) - set.rank();
    let mut passed = 0;
    for e in 1..set.n() + 1 {
        passed += Subset::choose(set.n() - e, left);
        if set.has(e) {
            left -= 1;
        } else {
            places[e as usize - 1] = passed - later;
        }
    }
    places
}
