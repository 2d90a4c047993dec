//! Whether vectors realize a chirotope.

ghost use Rattle.std.specs.Prelude.{◌≡◌, ◌↔◌, length, IsOk, IfErr, IsNone, IfSome};
ghost use Rattle.om_vectors.specs.Realizations.{Realizes, IsFirstOther};

use super::triple_signs::sign_of_triple;
use super::vector::Vector;
use om_chirotope::Chirotope;
use om_subsets::Subset;

/// Whether vectors realize a chirotope of rank 3, one vector for each element: the triple product of each
/// increasing triple has the chirotope's sign. Otherwise the error is the first triple, in lexicographic order,
/// whose product has another sign.
///
/// The call allocates no memory.
///
/// Source: Björner, Las Vergnas, Sturmfels, White and Ziegler, *Oriented Matroids*, chapter 8.
pub fn realizes(vectors: &[Vector], chi: &Chirotope) -> Result<(), Subset>
    requires rank { chi.now.rank ≡ 3 }
    requires elements { length vectors.now ≡ chi.now.elements }
    ensures realized { IsOk result ↔ Realizes vectors.now chi.now }
    ensures first { IfErr result (λ s. IsFirstOther vectors.now chi.now s) }
{
    match first_other(vectors, chi) {
        None => Ok(()),
        Some(s) => Err(s),
    }
}

/// The first triple, in lexicographic order, whose product doesn't have the sign of the chirotope, or None.
fn first_other(vectors: &[Vector], chi: &Chirotope) -> Option<Subset>
    requires rank { chi.now.rank ≡ 3 }
    requires elements { length vectors.now ≡ chi.now.elements }
    ensures none { IsNone result ↔ Realizes vectors.now chi.now }
    ensures first { IfSome result (λ s. IsFirstOther vectors.now chi.now s) }
{
    Subset::all(3, chi.elements()).find(|s| chi.at(*s) != sign_of_triple(vectors, *s))
}
