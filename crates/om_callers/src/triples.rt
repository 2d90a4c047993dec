//! A search over all triples.

ghost use Rattle.std.specs.Prelude.{◌≡◌, IfSome, IfNone};
ghost use Rattle.om_callers.specs.Triples.{IsFirstWithSign, HasNoneWithSign};

use om_chirotope::Chirotope;
use om_signs::Sign;
use om_subsets::Subset;

/// The lexicographically first triple of elements whose sign in a chirotope of rank 3 is this one. None if no
/// triple has this sign. The call allocates no memory.
///
/// Source: Björner, Las Vergnas, Sturmfels, White and Ziegler, *Oriented Matroids*, chapter 3.
pub fn first_triple(chi: &Chirotope, sign: Sign) -> Option<Subset>
    requires { chi.now.rank ≡ 3 }
    ensures found { IfSome result (IsFirstWithSign chi.now sign) }
    ensures none { IfNone result (HasNoneWithSign chi.now sign) }
{
    Subset::all(chi.rank(), chi.elements()).find(|triple| chi.at(*triple) == sign)
}
