//! Lists of signed elements, by value.

ghost use Rattle.std.specs.Prelude.{◌≡◌, ◌≤◌, ◌<◌, ◌-◌, ◌∷◌, [], ◌++◌, length, slice_set};
ghost use Rattle.om_symmetry.specs.Permutations.{signed_at};

use super::signed_element::SignedElement;
use om_signs::MAX_PLACES;
use std::marker::Model;

/// The number of places of a table.
pub(crate) const ROOM: usize = MAX_PLACES as usize;

/// What stands at the places that aren't in use.
const UNUSED: SignedElement = SignedElement {
    element: 0,
    negated: false,
};

/// A list of at most [`MAX_PLACES`] signed elements, by value. Contracts see the list.
#[derive(Drop)]
pub(crate) struct Entries {
    table: [SignedElement; ROOM],
    len: u8,
}

impl Model for Entries {
    ghost use Rattle.std.specs.Prelude.{List, take};
    ghost use Rattle.om_symmetry.specs.declared.signed_element.SignedElement.{SignedElement};

    ghost Value = { List SignedElement };

    ghost use Rattle.om_symmetry.specs.Table.{IsTable};

    ghost view = { λ e. take e.len e.table };

    ghost invariant = { λ e. IsTable e.table e.len };
}

impl Entries {
    /// The empty list.
    pub fn new() -> Entries
        ensures { result ≡ [] }
    {
        Entries {
            table: [UNUSED; ROOM],
            len: 0,
        }
    }

    /// Adds a signed element at the end.
    pub fn push(&mut self, a: SignedElement)
        requires { length self.old < MAX_PLACES }
        ensures { self.new ≡ self.old ++ a ∷ [] }
    {
        self.table[self.len as usize] = a;
        self.len += 1;
    }

    /// The number of signed elements.
    pub fn len(&self) -> u8
        ensures value { result ≡ length self.now }
        ensures few { result ≤ MAX_PLACES }
    {
        self.len
    }

    /// The signed elements, one after the other.
    pub fn as_slice(&self) -> &[SignedElement]
        ensures value { result.now ≡ self.now }
        ensures few { length result.now ≤ MAX_PLACES }
    {
        &self.table[..self.len as usize]
    }

    /// The signed element at a place, counted from 1.
    pub fn at(&self, place: u8) -> SignedElement
        requires low { 1 ≤ place }
        requires high { place ≤ length self.now }
        ensures { result ≡ signed_at self.now place }
    {
        self.table[place as usize - 1]
    }

    /// Writes a signed element at a place, counted from 1. The others stay.
    pub fn set(&mut self, place: u8, a: SignedElement)
        requires low { 1 ≤ place }
        requires high { place ≤ length self.old }
        ensures { self.new ≡ slice_set self.old (place - 1) a }
    {
        self.table[place as usize - 1] = a;
    }
}
