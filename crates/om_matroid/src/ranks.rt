//! The rank of a set.

ghost use Rattle.std.specs.Prelude.{◌≡◌};
ghost use Rattle.om_matroid.specs.Bases.{IsRankOf};

use super::search::is_basis;
use om_chirotope::Chirotope;
use om_subsets::Subset;

/// The rank of a set that is taken from the elements of the chirotope: the size of its greatest independent part.
/// This is the greatest number of elements that it has in common with a basis. The call walks once over the sets of
/// as many elements as the rank of the chirotope, and allocates no memory.
///
/// Source: Björner, Las Vergnas, Sturmfels, White and Ziegler, *Oriented Matroids*, chapter 3.
pub fn rank_of(chi: &Chirotope, s: Subset) -> u8
    requires { s.n ≡ chi.now.elements }
    ensures { IsRankOf chi.now s.elements result }
{
    let mut most = 0;
    for b in Subset::all(chi.rank(), chi.elements()) {
        let size = s.intersection(b).size();
        if most < size && is_basis(chi, b) {
            most = size;
        }
    }
    most
}
