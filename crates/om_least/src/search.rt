//! The search for an image that comes before a chirotope: over the signed permutations, entry by entry.

ghost use Rattle.std.specs.Prelude.{◌≡◌, ◌≤◌, ◌<◌, ◌↔◌, ◌∷◌, [], ◌++◌, length, IsTrue, IfSome, IfNone};
ghost use Rattle.om_laws.specs.Members.{IsMember};
ghost use Rattle.om_laws.specs.Sorting.{IsElement};
ghost use Rattle.om_symmetry.specs.Permutations.{elements_of};
ghost use Rattle.om_least.specs.Least.{IsLeast};
ghost use Rattle.om_least.specs.Triples.{IsTableOfValues};
ghost use Rattle.om_least.specs.Beginnings.{IsBeginning, IsLeastBehind, BeginsBefore, first_signs, first_image_signs};

use super::beginning::Beginning;
use super::comparing::compared;
use super::values::{TRIPLES, values_of};
use om_chirotope::Chirotope;
use om_signs::{MAX_PLACES, Sign};
use om_symmetry::SignedElement;
use std::cmp::Ordering;

/// Whether a chirotope is the least one of its class up to relabelling and reorientation: no image of it under a signed
/// permutation comes before it, if the signs are read in reverse lexicographic order of the sets, minus before zero and
/// zero before plus.
///
/// The signed permutations are tried entry by entry. The signs of an image at the sets of the first elements depend on
/// the first entries alone. If they come after those of the chirotope, all images that begin so do.
///
/// Source: Finschi and Fukuda, *Generation of oriented matroids* (2002).
pub fn is_least(chi: &Chirotope) -> bool
    ensures { IsTrue result ↔ IsLeast chi.now }
{
    lesser_beginning(chi).is_none()
}

/// The first entries of signed permutations under which the image comes before the chirotope, or None if it is least.
pub(crate) fn lesser_beginning(chi: &Chirotope) -> Option<Beginning>
    ensures before { IfSome result (BeginsBefore chi.now) }
    ensures least { IfNone result (IsLeast chi.now) }
{
    let values = if chi.rank() == 3 {
        values_of(chi)
    } else {
        // no value is looked up in the table
        [Sign::Zero; TRIPLES]
    };
    lesser_behind(chi, &values, &Beginning::empty())
}

/// The first entries of signed permutations under which the image comes before the chirotope, beginning with these
/// entries, or None if there are none. The first signs of an image that begins so are those of the chirotope.
#[cycle(walk)]
fn lesser_behind(chi: &Chirotope, values: &[Sign], beginning: &Beginning) -> Option<Beginning>
    requires begun { IsBeginning chi.now.elements beginning.now }
    requires few { length beginning.now ≤ chi.now.elements }
    requires tied { first_image_signs chi.now beginning.now ≡ first_signs chi.now (length beginning.now) }
    requires table { chi.now.rank ≡ 3 → IsTableOfValues chi.now values.now }
    ensures before { IfSome result (BeginsBefore chi.now) }
    ensures least { IfNone result (IsLeastBehind chi.now beginning.now) }
{
    let elements = chi.elements();
    if beginning.len() == elements {
        return None;
    }
    for element in 1..elements + 1 {
        if !beginning.has(element) {
            let plain = SignedElement {
                element,
                negated: false,
            };
            if let Some(lesser) = lesser_with(chi, values, beginning, plain) {
                return Some(lesser);
            }
            let negative = SignedElement {
                element,
                negated: true,
            };
            if let Some(lesser) = lesser_with(chi, values, beginning, negative) {
                return Some(lesser);
            }
        }
    }
    None
}

/// The first entries of signed permutations under which the image comes before the chirotope, beginning with these
/// entries and this one behind them, or None if there are none.
#[cycle(walk)]
fn lesser_with(
    chi: &Chirotope,
    values: &[Sign],
    beginning: &Beginning,
    a: SignedElement,
) -> Option<Beginning>
    requires begun { IsBeginning chi.now.elements beginning.now }
    requires few { length beginning.now < chi.now.elements }
    requires room { length beginning.now < MAX_PLACES }
    requires tied { first_image_signs chi.now beginning.now ≡ first_signs chi.now (length beginning.now) }
    requires element { IsElement chi.now.elements a.element }
    requires off { IsMember a.element (elements_of beginning.now) → ⊥ }
    requires table { chi.now.rank ≡ 3 → IsTableOfValues chi.now values.now }
    ensures before { IfSome result (BeginsBefore chi.now) }
    ensures least { IfNone result (IsLeastBehind chi.now (beginning.now ++ a ∷ [])) }
{
    let longer = beginning.followed_by(a);
    match compared(chi, values, &longer) {
        Ordering::Less => Some(longer),
        Ordering::Greater => None,
        Ordering::Equal => lesser_behind(chi, values, &longer),
    }
}
