//! The order of chirotopes by their signs in reverse lexicographic order of the sets.

ghost use Rattle.std.specs.Prelude.{◌≡◌, ◌↔◌, IsTrue};
ghost use Rattle.om_least.specs.Least.{IsBefore};

use om_chirotope::Chirotope;
use om_subsets::Subset;
use std::cmp::Ordering;

/// Whether the signs of the first chirotope come before those of the second, if both are read in reverse lexicographic
/// order of the sets: at the first set at which they differ, the first chirotope has the smaller sign. Minus is before
/// zero, and zero before plus. The chirotopes have the same rank and the same number of elements.
pub fn is_before(a: &Chirotope, b: &Chirotope) -> bool
    requires rank { a.now.rank ≡ b.now.rank }
    requires elements { a.now.elements ≡ b.now.elements }
    ensures { IsTrue result ↔ IsBefore a.now b.now }
{
    let (rank, elements) = (a.rank(), a.elements());
    for place in 0..Subset::choose(elements, rank) {
        let s = Subset::unrank_revlex(place, rank, elements);
        match a.at(s).cmp(&b.at(s)) {
            Ordering::Less => return true,
            Ordering::Greater => return false,
            Ordering::Equal => {}
        }
    }
    false
}
