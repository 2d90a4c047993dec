//! The least of the labellings along an element.

ghost use Rattle.std.specs.Prelude.{◌≡◌, ◌≤◌};
ghost use Rattle.om_symmetry.specs.Permutations.{IsSignedPermutation};

use super::frame::{along, begins_crossing, from_next_crossing};
use super::labelling::Labelling;
use super::signs::Signs;
use om_chirotope::Chirotope;
use om_signs::MAX_ELEMENTS;
use om_symmetry::SignedPermutation;

/// The label of a chirotope of rank 3: a signed permutation of its elements. The image of a simple chirotope under its
/// label is a normal form: all chirotopes that are isomorphic to it have the same one. That is tested, and not proved.
/// With loops or parallel elements the label is some signed permutation.
///
/// The elements of a simple chirotope of rank 3 are the pseudolines of an arrangement. An element, a first crossing on
/// it, a direction along it and a side of it fix an order and signs of all elements. Of the images under these
/// labellings the one is taken whose signs are least in reverse lexicographic order, with minus before zero before
/// plus. The call allocates no memory.
///
/// Source: Björner, Las Vergnas, Sturmfels, White and Ziegler, *Oriented Matroids*, chapter 6, on arrangements of
/// pseudolines.
pub fn label(chi: &Chirotope) -> SignedPermutation
    requires rank { chi.now.rank ≡ 3 }
    ensures { IsSignedPermutation chi.now.elements result }
{
    let least = least_labelling(&Signs::of(chi));
    permutation_of(&least, chi.elements())
}

/// The least of the labellings along an element, of all elements.
fn least_labelling(signs: &Signs) -> Labelling {
    let n = signs.elements();
    let mut least = along(signs, 1);
    for element in 1..n + 1 {
        let start = along(signs, element);
        let mut labelling = start;
        // the second time round, all others are negated: the element is seen from its other side
        for _side in 0..2u8 {
            for place in 2..n + 1 {
                if begins_crossing(signs, &start, place) {
                    least = lesser(signs, least, labelling);
                    least = lesser(signs, least, labelling.reversed(n));
                    labelling = from_next_crossing(signs, &labelling);
                }
            }
        }
    }
    least
}

/// The one of two labellings under which the signs of the image come first, in reverse lexicographic order of the
/// triples, with minus before zero before plus. It is the first one if the images are equal.
fn lesser(signs: &Signs, a: Labelling, b: Labelling) -> Labelling {
    for z in 3..signs.elements() + 1 {
        for y in 2..z {
            for x in 1..y {
                let in_a = signs.value(a.at(x), a.at(y), a.at(z));
                let in_b = signs.value(b.at(x), b.at(y), b.at(z));
                if in_a != in_b {
                    return if in_b < in_a { b } else { a };
                }
            }
        }
    }
    a
}

/// The signed permutation of 1 to n whose signed elements are those at the first n places of a labelling. If an element
/// stood there twice it would be the identity.
fn permutation_of(labelling: &Labelling, n: u8) -> SignedPermutation
    requires { n ≤ MAX_ELEMENTS }
    ensures { IsSignedPermutation n result }
{
    match SignedPermutation::from_entries(labelling.entries(n)) {
        Some(found) => found,
        None => SignedPermutation::identity(n),
    }
}
