//! The values of a chirotope of rank 3, in a table.

ghost use Rattle.std.specs.Prelude.{◌≡◌, ◌≢◌, ◌+◌, ◌≤◌, [], ◌∷◌, length};
ghost use Rattle.om_laws.specs.Sorting.{IsElement};
ghost use Rattle.om_chirotope.specs.Map.{chi_of, value_of, cocircuit_vector};
ghost use Rattle.om_chirotope.specs.Chirotope.{IsChirotope};
ghost use Rattle.om_chirotope.specs.Pictures.{AreRowsBelow};
ghost use Rattle.om_wiring.specs.Tables.{HasRowsBelow};

use om_chirotope::Chirotope;
use om_signs::{MAX_ELEMENTS, MAX_PLACES, Sign, SignVec};
use om_subsets::Subset;
use std::marker::Model;

/// The number of places for the rows of all elements.
const ROOM: usize = MAX_PLACES as usize;

/// A chirotope of rank 3 with a table of its values, for calls that read many of them. The row of two elements p and x
/// is the sign vector that has at each element y the value of the tuple p, x, y. Contracts see the map of the
/// chirotope.
#[derive(Drop)]
pub struct Values<'a> {
    chi: &'a Chirotope,
    rows: [[SignVec; ROOM]; ROOM],
}

impl<'a> Model for Values<'a> {
    ghost use Rattle.om_chirotope.specs.Map.{SignMap};

    ghost Value = { SignMap };

    ghost use Rattle.om_wiring.specs.Tables.{IsTable};

    ghost view = { λ v. v.chi.now };

    ghost invariant = { λ v. IsTable v.chi.now v.rows };
}

impl<'a> Values<'a> {
    /// The chirotope with the table of its values. The call allocates no memory.
    pub fn of(chi: &'a Chirotope) -> Values<'a>
        requires { chi.now.rank ≡ 3 }
        ensures { result ≡ chi.now }
    {
        Values {
            chi,
            rows: table_of(chi),
        }
    }

    /// The rank, which is 3.
    pub fn rank(&self) -> u8
        ensures value { result ≡ self.now.rank }
        ensures lawful { IsChirotope self.now }
    {
        let chi = self.chi;
        chi.rank()
    }

    /// The number of elements, from 1 to [`MAX_ELEMENTS`].
    pub fn elements(&self) -> u8
        ensures value { result ≡ self.now.elements }
        ensures low { 1 ≤ result }
        ensures high { result ≤ MAX_ELEMENTS }
        ensures lawful { IsChirotope self.now }
    {
        let chi = self.chi;
        chi.elements()
    }

    /// The sign of a set of three elements.
    pub fn at(&self, s: Subset) -> Sign
        requires n { s.n ≡ self.now.elements }
        requires size { length s.elements ≡ self.now.rank }
        ensures place { result ≡ chi_of self.now s.elements }
        ensures value { result ≡ value_of self.now s.elements }
    {
        let chi = self.chi;
        chi.at(s)
    }

    /// The row of two elements, each from 1 to the number of elements: at each element y the value of p, x and y.
    pub fn row(&self, p: u8, x: u8) -> SignVec
        requires p { IsElement self.now.elements p }
        requires x { IsElement self.now.elements x }
        ensures row { result ≡ cocircuit_vector self.now (p ∷ x ∷ []) }
        ensures size { length result ≡ self.now.elements }
    {
        let rows = &self.rows[p as usize - 1];
        rows[x as usize - 1]
    }

    /// The value of three elements, each from 1 to the number of elements.
    pub fn value(&self, p: u8, x: u8, y: u8) -> Sign
        requires p { IsElement self.now.elements p }
        requires x { IsElement self.now.elements x }
        requires y { IsElement self.now.elements y }
        ensures { result ≡ value_of self.now (p ∷ x ∷ y ∷ []) }
    {
        self.row(p, x).get(y)
    }
}

/// The rows of all pairs of elements.
fn table_of(chi: &Chirotope) -> [[SignVec; ROOM]; ROOM]
    requires { chi.now.rank ≡ 3 }
    ensures few { chi.now.elements ≤ MAX_ELEMENTS }
    ensures room { length result ≡ MAX_PLACES }
    ensures rows { HasRowsBelow chi.now result (chi.now.elements + 1) }
{
    let elements = chi.elements();
    let mut table = [[SignVec::zero(elements); ROOM]; ROOM];
    for p in 1..elements + 1 {
        let rows = rows_of(chi, p, &table);
        table[p as usize - 1] = rows;
    }
    table
}

/// The rows of one element with every element, found with the rows of the elements before it.
fn rows_of(chi: &Chirotope, p: u8, table: &[[SignVec; ROOM]]) -> [SignVec; ROOM]
    requires rank { chi.now.rank ≡ 3 }
    requires p { IsElement chi.now.elements p }
    requires table_room { length table.now ≡ MAX_PLACES }
    requires before { HasRowsBelow chi.now table.now p }
    ensures room { length result ≡ MAX_PLACES }
    ensures rows { AreRowsBelow chi.now (p ∷ []) result (chi.now.elements + 1) }
{
    let elements = chi.elements();
    let mut rows = [SignVec::zero(elements); ROOM];
    for x in 1..elements + 1 {
        if x != p {
            rows[x as usize - 1] = row_of(chi, p, x, table);
        }
    }
    rows
}

/// The row of two different elements. If x comes before p, it is the negative of the row of x with p.
fn row_of(chi: &Chirotope, p: u8, x: u8, table: &[[SignVec; ROOM]]) -> SignVec
    requires rank { chi.now.rank ≡ 3 }
    requires p { IsElement chi.now.elements p }
    requires x { IsElement chi.now.elements x }
    requires apart { x ≢ p }
    requires table_room { length table.now ≡ MAX_PLACES }
    requires before { HasRowsBelow chi.now table.now p }
    ensures { result ≡ cocircuit_vector chi.now (p ∷ x ∷ []) }
{
    let elements = chi.elements();
    if x < p {
        let rows = &table[x as usize - 1];
        return rows[p as usize - 1].neg();
    }
    chi.cocircuit_of(Subset::first(0, elements).with(p).with(x))
}
