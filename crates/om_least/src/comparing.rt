//! The first signs of an image, compared with those of the chirotope.

ghost use Rattle.std.specs.Prelude.{◌≡◌, ◌≤◌, ◌<◌, ◌-◌, ◌*◌, length, take};
ghost use Rattle.om_signs.specs.Sign.{product};
ghost use Rattle.om_signs.specs.SignVec.{at};
ghost use Rattle.om_signs.specs.Order.{lexicographic};
ghost use Rattle.om_subsets.specs.Subsets.{choose, IsSubsetFrom};
ghost use Rattle.om_chirotope.specs.Map.{value_of};
ghost use Rattle.om_symmetry.specs.Permutations.{image_value, sign_of};
ghost use Rattle.om_least.specs.Triples.{IsTableOfValues, place_of_triple};
ghost use Rattle.om_least.specs.Beginnings.{IsBeginning, first_signs, first_image_signs};

use super::beginning::{Beginning, ROOM};
use super::values::value_at;
use om_chirotope::Chirotope;
use om_signs::{MAX_PLACES, Sign};
use om_subsets::Subset;
use om_symmetry::SignedElement;
use std::cmp::Ordering;

/// How the first signs of the images under the signed permutations that begin with these entries compare with those of
/// the chirotope. They are the signs of the sets of the first elements, as many as there are entries. Those of the sets
/// without the last of these elements are the same. In rank 3 the values are those of a table.
pub(crate) fn compared(chi: &Chirotope, values: &[Sign], beginning: &Beginning) -> Ordering
    requires begun { IsBeginning chi.now.elements beginning.now }
    requires some { 1 ≤ length beginning.now }
    requires few { length beginning.now ≤ chi.now.elements }
    requires tied { take (choose (length beginning.now - 1) chi.now.rank) (first_image_signs chi.now beginning.now)
        ≡ take (choose (length beginning.now - 1) chi.now.rank) (first_signs chi.now (length beginning.now)) }
    requires table { chi.now.rank ≡ 3 → IsTableOfValues chi.now values.now }
    ensures { result
        ≡ lexicographic (first_image_signs chi.now beginning.now) (first_signs chi.now (length beginning.now)) }
{
    if chi.rank() != 3 {
        return compared_by_sets(chi, beginning);
    }
    let last = beginning.len();
    let c = beginning.at(last);
    for j in 2..last {
        let b = beginning.at(j);
        for i in 1..j {
            let image = triple_image(values, beginning.at(i), b, c);
            match image.cmp(&value_at(values, i, j, last)) {
                Ordering::Equal => {}
                order => return order,
            }
        }
    }
    Ordering::Equal
}

/// The sign of a triple in the images, by what stands at its places: that of the old elements, with their signs.
fn triple_image(values: &[Sign], a: SignedElement, b: SignedElement, c: SignedElement) -> Sign
    requires whole { length values.now ≡ MAX_PLACES * MAX_PLACES * MAX_PLACES }
    requires a { a.element < MAX_PLACES }
    requires b { b.element < MAX_PLACES }
    requires c { c.element < MAX_PLACES }
    ensures { result ≡ product (product (sign_of a) (product (sign_of b) (sign_of c)))
        (at values.now (place_of_triple a.element b.element c.element)) }
{
    let value = value_at(values, a.element, b.element, c.element);
    a.sign().times(b.sign().times(c.sign())).times(value)
}

/// The same in any rank, with the values of the chirotope.
fn compared_by_sets(chi: &Chirotope, beginning: &Beginning) -> Ordering
    requires begun { IsBeginning chi.now.elements beginning.now }
    requires some { 1 ≤ length beginning.now }
    requires few { length beginning.now ≤ chi.now.elements }
    requires tied { take (choose (length beginning.now - 1) chi.now.rank) (first_image_signs chi.now beginning.now)
        ≡ take (choose (length beginning.now - 1) chi.now.rank) (first_signs chi.now (length beginning.now)) }
    ensures { result
        ≡ lexicographic (first_image_signs chi.now beginning.now) (first_signs chi.now (length beginning.now)) }
{
    let (rank, elements) = (chi.rank(), chi.elements());
    let last = beginning.len();
    for place in Subset::choose(last - 1, rank)..Subset::choose(last, rank) {
        let s = Subset::unrank_revlex(place, rank, elements);
        match image_sign(chi, beginning, s).cmp(&chi.at(s)) {
            Ordering::Equal => {}
            order => return order,
        }
    }
    Ordering::Equal
}

/// The sign of a set of the first elements in the images under the signed permutations that begin with these entries.
fn image_sign(chi: &Chirotope, beginning: &Beginning, s: Subset) -> Sign
    requires begun { IsBeginning chi.now.elements beginning.now }
    requires n { s.n ≡ chi.now.elements }
    requires first { IsSubsetFrom 1 (length beginning.now) s.elements }
    requires size { length s.elements ≡ chi.now.rank }
    ensures { result ≡ image_value beginning.now (value_of chi.now) s.elements }
{
    let size = s.size() as usize;
    let mut tuple = [0u8; ROOM];
    let mut sign = Sign::Plus;
    let mut rest = s;
    for place in 0..size {
        let i = rest.least();
        let a = beginning.at(i);
        tuple[place] = a.element;
        sign = sign.times(a.sign());
        rest = rest.without(i);
    }
    sign.times(chi.value(&tuple[..size]))
}
