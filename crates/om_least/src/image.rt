//! The least map of the class of a chirotope.

ghost use Rattle.std.specs.Prelude.{◌≡◌, ◌≤◌, length, take, IfOk, IfSome, IfNone};
ghost use Rattle.om_symmetry.specs.Permutations.{IsSignedPermutation, AreIsomorphic, acted};
ghost use Rattle.om_least.specs.Least.{IsBefore, IsLeast};
ghost use Rattle.om_least.specs.Beginnings.{IsBeginning};

use super::beginning::Beginning;
use super::search::lesser_beginning;
use om_chirotope::Chirotope;
use om_signs::{MAX_PLACES, NoMemory};
use om_symmetry::{SignedElement, SignedPermutation};
use std::alloc::Global;

/// The least chirotope of the class up to relabelling and reorientation. Memory comes from `alloc`.
///
/// An image that comes before the chirotope takes its place, until there is none.
///
/// [`NoMemory`] comes only if memory runs out.
///
/// Source: Finschi and Fukuda, *Generation of oriented matroids* (2002).
pub fn least_image(alloc: Global, chi: &Chirotope) -> Result<Chirotope, NoMemory>
    ensures least { IfOk result IsLeast }
    ensures isomorphic { IfOk result (AreIsomorphic chi.now) }
    ensures rank { IfOk result (λ image. image.rank ≡ chi.now.rank) }
    ensures elements { IfOk result (λ image. image.elements ≡ chi.now.elements) }
{
    // a copy, in memory from `alloc`
    let mut image = SignedPermutation::identity(chi.elements()).act(alloc, chi)?;
    while let Some(permutation) = lesser_permutation(&image) {
        image = permutation.act(alloc, &image)?;
    }
    Ok(image)
}

/// A signed permutation under which the image comes before the chirotope, or None if it is least.
fn lesser_permutation(chi: &Chirotope) -> Option<SignedPermutation>
    ensures permutation { IfSome result (IsSignedPermutation chi.now.elements) }
    ensures before { IfSome result (λ w. IsBefore (acted w chi.now) chi.now) }
    ensures least { IfNone result (IsLeast chi.now) }
{
    match lesser_beginning(chi) {
        Some(first) => {
            SignedPermutation::from_entries(completed(first, chi.elements()).as_slice())
        }
        None => None,
    }
}

/// The entries of a signed permutation that begins with these. The other elements follow in increasing order, and none
/// of them is negated.
fn completed(first: Beginning, elements: u8) -> Beginning
    requires begun { IsBeginning elements first }
    requires room { elements ≤ MAX_PLACES }
    ensures permutation { IsSignedPermutation elements result }
    ensures begins { take (length first) result ≡ first }
{
    let mut entries = first;
    for element in 1..elements + 1 {
        if !entries.has(element) {
            entries = entries.followed_by(SignedElement {
                element,
                negated: false,
            });
        }
    }
    entries
}
