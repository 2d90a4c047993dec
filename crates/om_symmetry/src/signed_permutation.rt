//! Signed permutations, their group, and their action on chirotopes.

ghost use Rattle.std.specs.Prelude.{◌≡◌, ◌≤◌, ◌<◌, ◌↔◌, length, IsSome, IfSome, IfOk, IsTrue};
ghost use Rattle.om_subsets.specs.Subsets.{IsMember};
ghost use Rattle.om_laws.specs.Sorting.{IsElement};
ghost use Rattle.om_chirotope.specs.Map.{value_of};
ghost use Rattle.om_symmetry.specs.Permutations.{IsSignedPermutation, AreInverse, signed_at, identity, followed_by};
ghost use Rattle.om_symmetry.specs.Permutations.{lifted, image_value, acted};

use super::entries::{Entries, ROOM};
use super::signed_element::SignedElement;
use om_chirotope::Chirotope;
use om_signs::{List, MAX_PLACES, NoMemory, RawMap, Sign};
use om_subsets::Subset;
use std::alloc::Global;
use std::marker::Model;

/// A signed permutation of the elements 1 to n: n distinct elements of 1 to n, each negated or not. It takes a map on
/// these elements to its image, in which the new element i is the old element at place i, or its negative. So it
/// relabels the map, and reorients it. n is at most [`MAX_PLACES`].
///
/// Contracts see the list of its signed elements.
///
/// Source: Björner, Las Vergnas, Sturmfels, White and Ziegler, *Oriented Matroids*, chapters 3 and 7.
#[derive(Drop)]
pub struct SignedPermutation {
    entries: Entries,
}

impl Model for SignedPermutation {
    ghost use Rattle.std.specs.Prelude.{List, ◌≤◌, length};
    ghost use Rattle.om_symmetry.specs.declared.signed_element.SignedElement.{SignedElement};

    ghost Value = { List SignedElement };

    ghost use Rattle.om_symmetry.specs.Permutations.{IsSignedPermutation};

    ghost view = { λ p. p.entries };

    ghost invariant = { λ p. IsSignedPermutation (length p.entries) p.entries };
}

impl SignedPermutation {
    /// The signed permutation with these signed elements, or None if they aren't one: if there are more than
    /// [`MAX_PLACES`], if an element is 0 or above their number, or if an element occurs twice.
    pub fn from_entries(entries: &[SignedElement]) -> Option<SignedPermutation>
        ensures some { IsSome result
            ↔ ((length entries.now ≤ MAX_PLACES) × IsSignedPermutation (length entries.now) entries.now) }
        ensures value { IfSome result (λ w. w ≡ entries.now) }
    {
        if entries.len() > ROOM {
            return None;
        }
        let n = entries.len() as u8;
        let mut listed = Entries::new();
        let mut seen = Subset::first(0, n);
        for a in entries {
            if !is_further(seen, a.element) {
                return None;
            }
            seen = seen.with(a.element);
            listed.push(*a);
        }
        Some(SignedPermutation { entries: listed })
    }

    /// The signed permutation under which each of the elements 1 to n stays. `n` is at most [`MAX_PLACES`].
    pub fn identity(n: u8) -> SignedPermutation
        requires { n ≤ MAX_PLACES }
        ensures { result ≡ identity n }
    {
        let mut entries = Entries::new();
        for element in 1..n + 1 {
            entries.push(SignedElement {
                element,
                negated: false,
            });
        }
        SignedPermutation { entries }
    }

    /// The number n of elements.
    pub fn elements(&self) -> u8
        ensures value { result ≡ length self.now }
        ensures few { result ≤ MAX_PLACES }
        ensures lawful { IsSignedPermutation (length self.now) self.now }
    {
        self.entries.len()
    }

    /// The old element that the new element i is, or its negative. `i` is from 1 to n.
    pub fn at(&self, i: u8) -> SignedElement
        requires low { 1 ≤ i }
        requires high { i ≤ length self.now }
        ensures value { result ≡ signed_at self.now i }
        ensures low { 1 ≤ result.element }
        ensures high { result.element ≤ length self.now }
    {
        self.entries.at(i)
    }

    /// The product: this signed permutation, and then the next, of as many elements.
    pub fn then(&self, next: &SignedPermutation) -> SignedPermutation
        requires { length next.now ≡ length self.now }
        ensures { result ≡ followed_by self.now next.now }
    {
        let mut entries = Entries::new();
        for a in next.entries.as_slice() {
            entries.push(self.entries.at(a.element).negated_if(a.negated));
        }
        SignedPermutation { entries }
    }

    /// The inverse: its product with this signed permutation, in either order, is the identity.
    pub fn inverse(&self) -> SignedPermutation
        ensures elements { length result ≡ length self.now }
        ensures inverse { AreInverse self.now result }
    {
        let n = self.elements();
        let mut entries = SignedPermutation::identity(n).entries;
        for i in 1..n + 1 {
            let a = self.at(i);
            entries.set(
                a.element,
                SignedElement {
                    element: i,
                    negated: a.negated,
                },
            );
        }
        SignedPermutation { entries }
    }

    /// The lift to one more element, n + 1, which stays. n is below [`MAX_PLACES`].
    pub fn lift(&self) -> SignedPermutation
        requires { length self.now < MAX_PLACES }
        ensures { result ≡ lifted self.now }
    {
        let n = self.elements();
        let mut entries = Entries::new();
        for a in self.entries.as_slice() {
            entries.push(*a);
        }
        entries.push(SignedElement {
            element: n + 1,
            negated: false,
        });
        SignedPermutation { entries }
    }

    /// The sign of a set of as many elements as the rank in the image of a chirotope, on as many elements as this
    /// signed permutation has. It is the value of the tuple of the old elements, negated once for each negative among
    /// them.
    pub fn image_sign(&self, chi: &Chirotope, s: Subset) -> Sign
        requires elements { length self.now ≡ chi.now.elements }
        requires n { s.n ≡ chi.now.elements }
        requires size { length s.elements ≡ chi.now.rank }
        ensures { result ≡ image_value self.now (value_of chi.now) s.elements }
    {
        let entries = &self.entries;
        let size = s.size() as usize;
        let mut tuple = [0u8; ROOM];
        let mut sign = Sign::Plus;
        let mut rest = s;
        for place in 0..size {
            let i = rest.least();
            let a = entries.at(i);
            tuple[place] = a.element;
            sign = sign.times(a.sign());
            rest = rest.without(i);
        }
        sign.times(chi.value(&tuple[..size]))
    }

    /// The image of a chirotope on as many elements: its relabelling and reorientation. Memory for the signs comes from
    /// `alloc`.
    ///
    /// [`NoMemory`] comes only if memory runs out.
    pub fn act(&self, alloc: Global, chi: &Chirotope) -> Result<Chirotope, NoMemory>
        requires { length self.now ≡ chi.now.elements }
        ensures { IfOk result (λ d. d ≡ acted self.now chi.now) }
    {
        let rank = chi.rank();
        let elements = self.elements();
        let mut signs = List::new(alloc);
        for s in Subset::all(rank, elements) {
            signs.push(self.image_sign(chi, s))?;
        }
        Ok(Chirotope::lawful(RawMap {
            rank,
            elements,
            signs,
        }))
    }
}

/// Whether e is one of the elements 1 to n, from which the set is taken, and isn't in the set.
fn is_further(seen: Subset, e: u8) -> bool
    ensures { IsTrue result ↔ (IsElement seen.n e × (IsMember e seen.elements → ⊥)) }
{
    1 <= e && e <= seen.n() && !seen.has(e)
}
