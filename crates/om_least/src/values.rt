//! The values of a chirotope of rank 3 at all triples of elements, as a table.

ghost use Rattle.std.specs.Prelude.{◌≡◌, ◌<◌, ◌*◌, ◌↔◌, length, IsTrue};
ghost use Rattle.om_signs.specs.SignVec.{at};
ghost use Rattle.om_laws.specs.Sorting.{IsElement};
ghost use Rattle.om_least.specs.Triples.{place_of_triple, IsTableOfValues};

use super::beginning::ROOM;
use om_chirotope::Chirotope;
use om_signs::{MAX_PLACES, Sign};

/// The number of places of the table.
pub(crate) const TRIPLES: usize = ROOM * ROOM * ROOM;

/// The values of a chirotope of rank 3 at all triples of its elements.
pub(crate) fn values_of(chi: &Chirotope) -> [Sign; TRIPLES]
    requires { chi.now.rank ≡ 3 }
    ensures { IsTableOfValues chi.now result }
{
    let n = chi.elements();
    let mut values = [Sign::Zero; TRIPLES];
    for place in 0..TRIPLES {
        let x = (place / ROOM / ROOM) as u8;
        let y = (place / ROOM % ROOM) as u8;
        let z = (place % ROOM) as u8;
        if are_elements(n, x, y, z) {
            values[place] = chi.value(&[x, y, z]);
        }
    }
    values
}

/// Whether all three are elements of 1 to n.
fn are_elements(n: u8, x: u8, y: u8, z: u8) -> bool
    ensures { IsTrue result ↔ (IsElement n x × IsElement n y × IsElement n z) }
{
    1 <= x && x <= n && 1 <= y && y <= n && 1 <= z && z <= n
}

/// What stands at the place of three elements.
pub(crate) fn value_at(values: &[Sign], x: u8, y: u8, z: u8) -> Sign
    requires whole { length values.now ≡ MAX_PLACES * MAX_PLACES * MAX_PLACES }
    requires x { x < MAX_PLACES }
    requires y { y < MAX_PLACES }
    requires z { z < MAX_PLACES }
    ensures { result ≡ at values.now (place_of_triple x y z) }
{
    values[(x as usize * ROOM + y as usize) * ROOM + z as usize]
}
