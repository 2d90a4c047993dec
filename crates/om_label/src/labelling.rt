//! Labellings: which signed elements come first, second and so on.

ghost use Rattle.std.specs.Prelude.{◌≡◌, ◌≤◌, length};
ghost use Rattle.om_label.specs.Elements.{IsOnTable, AreOnTable};

use om_signs::{MAX_ELEMENTS, MAX_PLACES};
use om_symmetry::SignedElement;

/// The number of places of a table.
const ROOM: usize = MAX_PLACES as usize;

/// What stands at the places that aren't in use.
const UNUSED: SignedElement = SignedElement {
    element: 0,
    negated: false,
};

/// A signed element for each of the places from 1 to [`MAX_PLACES`], the first of which are in use. It says which
/// element becomes the first, the second and so on, and whether it is negated.
#[derive(Clone, Copy)]
pub struct Labelling {
    entries: [SignedElement; ROOM],
    ghost within: { AreOnTable entries },
}

impl Labelling {
    /// An element, and then the others of the elements 1 to n in their order. None is negated.
    pub fn beginning_with(element: u8, n: u8) -> Labelling
        requires element { element ≤ n }
        requires few { n ≤ MAX_ELEMENTS }
    {
        let mut labelling = Labelling {
            entries: [UNUSED; ROOM],
        };
        labelling.set(1, plain(element));
        for place in 2..n + 1 {
            labelling.set(
                place,
                plain(if place <= element { place - 1 } else { place }),
            );
        }
        labelling
    }

    /// The signed element at a place, counted from 1.
    pub fn at(&self, place: u8) -> SignedElement
        requires low { 1 ≤ place }
        requires high { place ≤ MAX_PLACES }
        ensures { IsOnTable result }
    {
        self.entries[place as usize - 1]
    }

    /// Writes a signed element at a place, counted from 1. The others stay.
    pub fn set(&mut self, place: u8, a: SignedElement)
        requires low { 1 ≤ place }
        requires high { place ≤ MAX_PLACES }
        requires on_table { IsOnTable a }
    {
        self.entries[place as usize - 1] = a;
    }

    /// Exchanges the signed elements at two places, counted from 1.
    pub fn exchange(&mut self, i: u8, j: u8)
        requires i_low { 1 ≤ i }
        requires i_high { i ≤ MAX_PLACES }
        requires j_low { 1 ≤ j }
        requires j_high { j ≤ MAX_PLACES }
    {
        let (a, b) = (self.at(i), self.at(j));
        self.set(i, b);
        self.set(j, a);
    }

    /// The same line in the other direction: the first signed element is negated, and the others up to place n are in
    /// reverse order.
    pub fn reversed(&self, n: u8) -> Labelling
        requires { n ≤ MAX_ELEMENTS }
    {
        let mut turned = *self;
        turned.set(1, negative(self.at(1)));
        for place in 2..n + 1 {
            turned.set(place, self.at(n + 2 - place));
        }
        turned
    }

    /// The same line from its second crossing on: the signed elements of the first crossing, which are as many as
    /// given and stand behind the first place, go to the end, up to place n. There they are in reverse order, and
    /// negated.
    pub fn rotated(&self, size: u8, n: u8) -> Labelling
        requires { n ≤ MAX_ELEMENTS }
    {
        let mut turned = *self;
        for place in 2..n + 1 {
            let moved = if size <= n - place {
                self.at(place + size)
            } else {
                negative(self.at(n + 2 - place))
            };
            turned.set(place, moved);
        }
        turned
    }

    /// The signed elements at the first n places.
    pub fn entries(&self, n: u8) -> &[SignedElement]
        requires { n ≤ MAX_ELEMENTS }
        ensures { length result.now ≡ n }
    {
        &self.entries[..n as usize]
    }
}

/// An element as it is.
fn plain(element: u8) -> SignedElement
    ensures { result.element ≡ element }
{
    SignedElement {
        element,
        negated: false,
    }
}

/// The signed element, negated once more.
pub fn negative(a: SignedElement) -> SignedElement
    ensures { result.element ≡ a.element }
{
    a.negated_if(true)
}
