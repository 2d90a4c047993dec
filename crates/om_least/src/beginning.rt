//! The first entries of a signed permutation, by value.

ghost use Rattle.std.specs.Prelude.{◌≡◌, ◌≤◌, ◌<◌, ◌∷◌, [], ◌++◌, ◌↔◌, length, IsTrue};
ghost use Rattle.om_laws.specs.Members.{IsMember};
ghost use Rattle.om_symmetry.specs.Permutations.{signed_at, elements_of};

use om_signs::MAX_PLACES;
use om_symmetry::SignedElement;
use std::marker::Model;

/// The number of places of a table.
pub(crate) const ROOM: usize = MAX_PLACES as usize;

/// What stands at the places that aren't in use.
const UNUSED: SignedElement = SignedElement {
    element: 0,
    negated: false,
};

/// The first entries of a signed permutation, at most [`MAX_PLACES`], by value. Contracts see the list.
#[derive(Drop)]
pub(crate) struct Beginning {
    table: [SignedElement; ROOM],
    len: u8,
}

impl Model for Beginning {
    ghost use Rattle.std.specs.Prelude.{List, take};
    ghost use Rattle.om_symmetry.specs.declared.signed_element.SignedElement.{SignedElement};

    ghost Value = { List SignedElement };

    ghost use Rattle.om_symmetry.specs.Table.{IsTable};

    ghost view = { λ e. take e.len e.table };

    ghost invariant = { λ e. IsTable e.table e.len };
}

impl Beginning {
    /// No entries.
    pub fn empty() -> Beginning
        ensures { result ≡ [] }
    {
        Beginning {
            table: [UNUSED; ROOM],
            len: 0,
        }
    }

    /// These entries, and one more behind them.
    pub fn followed_by(&self, a: SignedElement) -> Beginning
        requires { length self.now < MAX_PLACES }
        ensures { result ≡ self.now ++ a ∷ [] }
    {
        let mut table = self.table;
        table[self.len as usize] = a;
        Beginning {
            table,
            len: self.len + 1,
        }
    }

    /// The number of entries.
    pub fn len(&self) -> u8
        ensures value { result ≡ length self.now }
        ensures few { result ≤ MAX_PLACES }
    {
        self.len
    }

    /// The entry at a place, counted from 1.
    pub fn at(&self, place: u8) -> SignedElement
        requires low { 1 ≤ place }
        requires high { place ≤ length self.now }
        ensures { result ≡ signed_at self.now place }
    {
        self.table[place as usize - 1]
    }

    /// The entries as a slice.
    pub fn as_slice(&self) -> &[SignedElement]
        ensures { result.now ≡ self.now }
    {
        &self.table[..self.len as usize]
    }

    /// Whether an element, or its negative, is among the entries.
    pub fn has(&self, element: u8) -> bool
        ensures { IsTrue result ↔ IsMember element (elements_of self.now) }
    {
        for i in 0..self.len as usize {
            if self.table[i].element == element {
                return true;
            }
        }
        false
    }
}
