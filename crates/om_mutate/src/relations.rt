//! The test of one triple by the three-term relations that contain it.

ghost use Rattle.std.specs.Prelude.{ℕ, ◌≡◌, ◌-◌, ◌≤◌, ◌↔◌, ◌∷◌, [], length, IsTrue, slice_set};
ghost use Rattle.om_signs.specs.Sign.{opposite};
ghost use Rattle.om_signs.specs.SignVec.{at_element};
ghost use Rattle.om_subsets.specs.Subsets.{without_element};
ghost use Rattle.om_laws.specs.Sorting.{IsElement};
ghost use Rattle.om_chirotope.specs.Map.{cocircuit_vector};
ghost use Rattle.om_chirotope.specs.Chirotope.{IsChirotope};
ghost use Rattle.om_mutate.specs.Mutations.{IsMutation};
ghost use Rattle.om_mutate.specs.Turns.{StaysBalancedAround, StaysBalancedAt, StaysBalancedWith, turned_row};

use om_chirotope::are_balanced;
use om_signs::{Sign, SignVec};
use om_subsets::Subset;
use om_wiring::Values;

/// Whether a triple of a chirotope is a mutation: its sign isn't 0, and the three-term relations that contain it
/// stay balanced if this sign is negated. Bases stay bases, and the other relations don't change.
pub fn is_mutation(chi: &Values, triple: Subset) -> bool
    requires lawful { IsChirotope chi.now }
    requires rank { chi.now.rank ≡ 3 }
    requires n { triple.n ≡ chi.now.elements }
    requires size { length triple.elements ≡ 3 }
    ensures { IsTrue result ↔ IsMutation chi.now triple.elements }
{
    if chi.at(triple) == Sign::Zero {
        return false;
    }
    let (a, b, c) = triple.three_elements();
    stays_balanced_around(chi, a, b, c)
}

/// Whether the relations of each of a, b and c with the other two stay balanced if the sign of the three is
/// negated.
fn stays_balanced_around(chi: &Values, a: u8, b: u8, c: u8) -> bool
    requires rank { chi.now.rank ≡ 3 }
    requires a { IsElement chi.now.elements a }
    requires b { IsElement chi.now.elements b }
    requires c { IsElement chi.now.elements c }
    ensures { IsTrue result ↔ StaysBalancedAround chi.now a b c }
{
    if !stays_balanced_at(chi, a, b, c) {
        return false;
    }
    if !stays_balanced_at(chi, b, a, c) {
        return false;
    }
    stays_balanced_at(chi, c, a, b)
}

/// Whether the relations of p with x, y and two other elements stay balanced if the sign of p, x and y is negated.
/// For this, the rows of p with x and with y are each negated at one place.
fn stays_balanced_at(chi: &Values, p: u8, x: u8, y: u8) -> bool
    requires rank { chi.now.rank ≡ 3 }
    requires p { IsElement chi.now.elements p }
    requires x { IsElement chi.now.elements x }
    requires y { IsElement chi.now.elements y }
    ensures { IsTrue result ↔ StaysBalancedAt chi.now p x y }
{
    let elements = chi.elements();
    let first = turned(chi.row(p, x), y);
    let second = turned(chi.row(p, y), x);
    for z in 1..elements + 1 {
        if !stays_balanced_with(chi, first, second, p, x, y, z) {
            return false;
        }
    }
    true
}

/// The vector with the sign at an element negated.
fn turned(row: SignVec, e: u8) -> SignVec
    requires low { 1 ≤ e }
    requires high { e ≤ length row }
    ensures { result ≡ turned_row row e }
{
    row.set(e, row.get(e).neg())
}

/// Whether the relations of p with x, y, z and each other element stay balanced, found with the changed rows. If
/// the other element is x or y, they always do.
fn stays_balanced_with(
    chi: &Values,
    first: SignVec,
    second: SignVec,
    p: u8,
    x: u8,
    y: u8,
    z: u8,
) -> bool
    requires rank { chi.now.rank ≡ 3 }
    requires p { IsElement chi.now.elements p }
    requires x { IsElement chi.now.elements x }
    requires y { IsElement chi.now.elements y }
    requires z { IsElement chi.now.elements z }
    requires first { first ≡ turned_row (cocircuit_vector chi.now (p ∷ x ∷ [])) y }
    requires second { second ≡ turned_row (cocircuit_vector chi.now (p ∷ y ∷ [])) x }
    ensures { IsTrue result ↔ StaysBalancedWith chi.now p x y z }
{
    if z == x {
        return true;
    }
    if z == y {
        return true;
    }
    are_balanced(first, second, chi.row(p, z), y, z)
}
