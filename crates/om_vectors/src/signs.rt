//! The chirotope of vectors.

ghost use Rattle.std.specs.Prelude.{◌≡◌, ◌≢◌, ◌≤◌, ◌↔◌, length, map, IfOk, IfSome, IsNone, IsErrOf};
ghost use Rattle.om_subsets.specs.Subsets.{all_subsets, IsTriple};
ghost use Rattle.om_vectors.specs.Realizations.{triple_sign, signs_map, IsRankLow};

use super::signs_error::SignsError;
use super::triple_signs::sign_of_triple;
use super::vector::Vector;
use om_chirotope::Chirotope;
use om_signs::{List, MAX_ELEMENTS, NoMemory, RawMap, Sign};
use om_subsets::Subset;
use std::alloc::Global;

/// The chirotope of rank 3 of some vectors: each increasing triple has the sign of its triple product. It isn't
/// made normal. There are from 1 to [`MAX_ELEMENTS`] vectors.
///
/// `RankLow` comes exactly if every triple product is 0, so always for fewer than three vectors. `Memory` comes
/// only if memory runs out.
///
/// Source: Björner, Las Vergnas, Sturmfels, White and Ziegler, *Oriented Matroids*, chapter 1.
pub fn signs_of(alloc: Global, vectors: &[Vector]) -> Result<Chirotope, SignsError>
    requires low { 1 ≤ length vectors.now }
    requires high { length vectors.now ≤ MAX_ELEMENTS }
    ensures rank_low { IsErrOf result SignsError.RankLow ↔ IsRankLow vectors.now }
    ensures value { IfOk result (λ c. c ≡ signs_map vectors.now) }
{
    let Some(_) = some_nonzero(vectors) else {
        return Err(SignsError::RankLow);
    };
    let signs = signs_in_order(alloc, vectors)?;
    Ok(Chirotope::lawful(RawMap {
        rank: 3,
        elements: vectors.len() as u8,
        signs,
    }))
}

/// The first triple, in lexicographic order, whose triple product isn't 0, or None if all are 0.
fn some_nonzero(vectors: &[Vector]) -> Option<Subset>
    requires { length vectors.now ≤ MAX_ELEMENTS }
    ensures none { IsNone result ↔ IsRankLow vectors.now }
    ensures triple { IfSome result (λ s. IsTriple (length vectors.now) s.elements) }
    ensures nonzero { IfSome result (λ s. triple_sign vectors.now s.elements ≢ Sign.Zero) }
{
    Subset::all(3, vectors.len() as u8).find(|s| sign_of_triple(vectors, *s) != Sign::Zero)
}

/// The signs of the triple products of all triples, in lexicographic order.
fn signs_in_order(alloc: Global, vectors: &[Vector]) -> Result<List<Sign>, NoMemory>
    requires { length vectors.now ≤ MAX_ELEMENTS }
    ensures { IfOk result (λ l. l ≡ map (triple_sign vectors.now) (all_subsets (length vectors.now) 3)) }
{
    let mut signs = List::new(alloc);
    for s in Subset::all(3, vectors.len() as u8) {
        signs.push(sign_of_triple(vectors, s))?;
    }
    Ok(signs)
}
