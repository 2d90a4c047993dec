//! The chirotope of a set of cocircuits, and that of a set of circuits.

ghost use Rattle.std.specs.Prelude.{◌≡◌, ◌≤◌, IfOk, length};
ghost use Rattle.om_signs.specs.declared.sign.Sign.TheVariants.{Plus};
ghost use Rattle.om_chirotope.specs.Map.{IsLedBy, map_of};
ghost use Rattle.om_chirotope.specs.Chirotope.{IsChirotope};
ghost use Rattle.om_denotation.specs.Circuits.{IsCircuitOfChirotope, IsCocircuitOfChirotope};
ghost use Rattle.om_denotation.specs.Covectors.{IsCovectorOfChirotope, IsCovectorOfCircuits, IsCovectorOfCocircuits};
ghost use Rattle.om_denotation.specs.Denotation.{DenoteTheSame};
ghost use Rattle.om_denotation.specs.Listings.{AreAllOf};
ghost use Rattle.om_denotation.specs.Only.{IsOnlyChirotope};
ghost use Rattle.om_convert.specs.Hitting.{IsNormalOf, IsEachNormalOf, IsRankOfNormal};
ghost use Rattle.om_convert.specs.Ranks.{IsRankFor};
ghost use Rattle.om_members.specs.Listings.{HaveLength};
ghost use Rattle.om_subsets.specs.Subsets.{choose};

use super::signs::sign_of;
use om_chirotope::Chirotope;
use om_circuits::{Circuits, Cocircuits, SignedSet};
use om_denotation::dual;
use om_signs::{List, MAX_ELEMENTS, NoMemory, RawMap, SignVec};
use om_subsets::Subset;
use std::alloc::Global;

/// The map of this rank whose signs are carried from set to set by the vectors. The rank is at most `elements`, and
/// each vector has `elements` signs. If the vectors are the cocircuits of a chirotope of this rank, the map is its
/// normal form. For other vectors nothing is said about its signs. Memory for the signs comes from `alloc`.
///
/// [`NoMemory`] comes only if memory runs out.
///
/// Source: Björner, Las Vergnas, Sturmfels, White and Ziegler, *Oriented Matroids*, chapter 3.
pub fn propagated_map(
    alloc: Global,
    vectors: &[SignVec],
    rank: u8,
    elements: u8,
) -> Result<RawMap, NoMemory>
    requires part { rank ≤ elements }
    requires high { elements ≤ MAX_ELEMENTS }
    requires lengths { HaveLength elements vectors.now }
    ensures rank { IfOk result (λ raw. raw.rank ≡ rank) }
    ensures elements { IfOk result (λ raw. raw.elements ≡ elements) }
    ensures whole { IfOk result (λ raw. length raw.signs ≡ choose elements rank) }
    ensures normal { IfOk result (λ raw. IsEachNormalOf elements vectors.now (map_of raw)) }
{
    let mut signs = List::new(alloc);
    for t in Subset::all(rank, elements) {
        let sign = sign_of(vectors, signs.as_slice(), t);
        signs.push(sign)?;
    }
    Ok(RawMap {
        rank,
        elements,
        signs,
    })
}

/// The normal chirotope of this rank whose cocircuits are the members of a set. Memory for the signs comes from
/// `alloc`.
///
/// The bases are the sets of as many elements as the rank that meet every member. The sign of the first basis is
/// plus. Each other basis gets its sign from an earlier basis that differs from it in one element, by a member that
/// is zero on the elements that both share.
///
/// [`NoMemory`] comes only if memory runs out.
///
/// Source: Björner, Las Vergnas, Sturmfels, White and Ziegler, *Oriented Matroids*, chapter 3.
pub fn chirotope_of(alloc: Global, set: &SignedSet, rank: u8) -> Result<Chirotope, NoMemory>
    requires { IsRankOfNormal set.now.elements set.now.members rank }
    ensures { IfOk result (IsNormalOf set.now.elements set.now.members) }
{
    let elements = set.elements();
    let vectors = set.members();
    let raw = propagated_map(alloc, vectors, rank, elements)?;
    Ok(Chirotope::lawful(raw))
}

/// The normal chirotope with these cocircuits, whose rank is `rank`. Both have the same elements and denote the
/// same oriented matroid, and up to sign it is the only chirotope that does. Memory for the signs comes from
/// `alloc`.
///
/// [`NoMemory`] comes only if memory runs out.
///
/// Source: Björner, Las Vergnas, Sturmfels, White and Ziegler, *Oriented Matroids*, chapter 3.
pub fn chirotope_of_cocircuits(
    alloc: Global,
    c: &Cocircuits,
    rank: u8,
) -> Result<Chirotope, NoMemory>
    requires { IsRankFor c.now.0.elements (IsCovectorOfCocircuits c.now.0) rank }
    ensures elements { IfOk result (λ m. m.elements ≡ c.now.0.elements) }
    ensures cocircuits { IfOk result (λ m. AreAllOf (IsCocircuitOfChirotope m) c.now.0.members) }
    ensures same { IfOk result (λ m.
        DenoteTheSame c.now.0.elements (IsCovectorOfCocircuits c.now.0) (IsCovectorOfChirotope m)) }
    ensures lawful { IfOk result IsChirotope }
    ensures normal { IfOk result (λ m. IsLedBy Plus m.signs) }
    ensures unique { IfOk result IsOnlyChirotope }
{
    chirotope_of(alloc, &c.0, rank)
}

/// The normal chirotope with these circuits, whose rank is `rank`: the dual of the one whose cocircuits they are.
/// Both have the same elements and denote the same oriented matroid, and up to sign it is the only chirotope that
/// does. Memory for the signs comes from `alloc`.
///
/// [`NoMemory`] comes only if memory runs out.
///
/// Source: Björner, Las Vergnas, Sturmfels, White and Ziegler, *Oriented Matroids*, chapter 3.
pub fn chirotope_of_circuits(alloc: Global, c: &Circuits, rank: u8) -> Result<Chirotope, NoMemory>
    requires part { rank ≤ c.now.0.elements }
    requires rank { IsRankFor c.now.0.elements (IsCovectorOfCircuits c.now.0) rank }
    ensures elements { IfOk result (λ m. m.elements ≡ c.now.0.elements) }
    ensures circuits { IfOk result (λ m. AreAllOf (IsCircuitOfChirotope m) c.now.0.members) }
    ensures same { IfOk result (λ m.
        DenoteTheSame c.now.0.elements (IsCovectorOfCircuits c.now.0) (IsCovectorOfChirotope m)) }
    ensures lawful { IfOk result IsChirotope }
    ensures normal { IfOk result (λ m. IsLedBy Plus m.signs) }
    ensures unique { IfOk result IsOnlyChirotope }
{
    let other = chirotope_of(alloc, &c.0, c.0.elements() - rank)?;
    dual(alloc, &other)
}
