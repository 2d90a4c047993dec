//! The signs of a chirotope of rank 3, in a table.

ghost use Rattle.std.specs.Prelude.{◌≤◌, ◌<◌, ◌≡◌};
ghost use Rattle.om_signs.specs.declared.limits.TheConstants.{MAX_ELEMENTS};
ghost use Rattle.om_label.specs.Elements.{IsOnTable};

use om_chirotope::Chirotope;
use om_signs::{MAX_ELEMENTS, MAX_PLACES, Sign};
use om_symmetry::SignedElement;

/// The number of places for the elements, which are counted from 1.
const SIDE: usize = MAX_PLACES as usize;

/// The number of places for the triples of elements.
const ROOM: usize = SIDE * SIDE * SIDE;

/// The values of all triples of elements of a chirotope of rank 3, in a table, for the many that a comparison of
/// labellings reads.
#[derive(Drop)]
pub struct Signs {
    elements: u8,
    table: [Sign; ROOM],
    ghost low: { 1 ≤ elements },
    ghost high: { elements ≤ MAX_ELEMENTS },
}

impl Signs {
    /// The values of a chirotope of rank 3. The call allocates no memory.
    pub fn of(chi: &Chirotope) -> Signs
        ensures { result.elements ≡ chi.now.elements }
    {
        let elements = chi.elements();
        let mut table = [Sign::Zero; ROOM];
        let mut signs = chi.signs().iter();
        for x in 1..elements + 1 {
            for y in x + 1..elements + 1 {
                for z in y + 1..elements + 1 {
                    if let Some(sign) = signs.next() {
                        write(&mut table, x, y, z, *sign);
                    }
                }
            }
        }
        Signs { elements, table }
    }

    /// The number of elements, from 1 to [`MAX_ELEMENTS`].
    pub fn elements(&self) -> u8
        ensures value { result ≡ self.now.elements }
        ensures low { 1 ≤ result }
        ensures high { result ≤ MAX_ELEMENTS }
    {
        self.elements
    }

    /// The value of a triple of signed elements: that of the elements, negated once for each negative among them.
    pub fn value(&self, a: SignedElement, b: SignedElement, c: SignedElement) -> Sign
        requires a { IsOnTable a }
        requires b { IsOnTable b }
        requires c { IsOnTable c }
    {
        let sign = self.table[place(a.element, b.element, c.element)];
        if (a.negated != b.negated) != c.negated {
            sign.neg()
        } else {
            sign
        }
    }
}

/// The place of a triple in the table.
fn place(x: u8, y: u8, z: u8) -> usize
    requires x { x < MAX_PLACES }
    requires y { y < MAX_PLACES }
    requires z { z < MAX_PLACES }
    ensures { result < ROOM }
{
    (x as usize * SIDE + y as usize) * SIDE + z as usize
}

/// Writes the sign of a triple at the places of all its orders: as it is for even ones, and negated for odd ones.
fn write(table: &mut [Sign; ROOM], x: u8, y: u8, z: u8, sign: Sign)
    requires x { x < MAX_PLACES }
    requires y { y < MAX_PLACES }
    requires z { z < MAX_PLACES }
{
    table[place(x, y, z)] = sign;
    table[place(y, z, x)] = sign;
    table[place(z, x, y)] = sign;
    table[place(x, z, y)] = sign.neg();
    table[place(z, y, x)] = sign.neg();
    table[place(y, x, z)] = sign.neg();
}
