//! First bases.

ghost use Rattle.std.specs.Prelude.{◌≡◌};
ghost use Rattle.om_matroid.specs.Bases.{IsIndependent, IsFirstBasis, IsFirstBasisWith};

use super::search::first_between;
use om_chirotope::Chirotope;
use om_subsets::Subset;

/// The lexicographically first basis: the first increasing list, of as many elements as the rank, whose sign isn't
/// 0. The call walks at most once over the sets of this size, and allocates no memory.
///
/// Source: Björner, Las Vergnas, Sturmfels, White and Ziegler, *Oriented Matroids*, chapter 3.
pub fn first_basis(chi: &Chirotope) -> Subset
    ensures n { result.n ≡ chi.now.elements }
    ensures first { IsFirstBasis chi.now result.elements }
{
    let nothing = Subset::first(0, chi.elements());
    // some value of a chirotope isn't 0
    first_between(chi, nothing, nothing).unwrap()
}

/// The lexicographically first basis that contains an independent set. The set is taken from the elements of the
/// chirotope, and some basis contains it. By the law `empty_set_is_independent`, the empty set is independent. The
/// call walks at most once over the sets of as many elements as the rank, and allocates no memory.
///
/// Source: Björner, Las Vergnas, Sturmfels, White and Ziegler, *Oriented Matroids*, chapter 3.
pub fn extend_to_basis(chi: &Chirotope, independent: Subset) -> Subset
    requires n { independent.n ≡ chi.now.elements }
    requires independent { IsIndependent chi.now independent.elements }
    ensures n { result.n ≡ chi.now.elements }
    ensures first { IsFirstBasisWith chi.now independent.elements result.elements }
{
    let nothing = Subset::first(0, chi.elements());
    // an independent set is contained in some basis
    first_between(chi, independent, nothing).unwrap()
}
