//! Whether an oriented matroid is acyclic, and its extreme elements.

ghost use Rattle.std.specs.Prelude.{ℕ, ◌≡◌, ◌<◌, ◌≤◌, ◌↔◌, List, IsTrue, IfOk, IfErr, IsErrAnd, None, get_or, length};
ghost use Rattle.om_signs.specs.declared.sign.Sign.{Sign as Signs};
ghost use Rattle.om_chirotope.specs.Chirotope.{IsChirotope};
ghost use Rattle.om_denotation.specs.Circuits.{IsCircuitOfChirotope, IsCocircuitOfChirotope};
ghost use Rattle.om_denotation.specs.Covectors.{IsCovectorOfChirotope};
ghost use Rattle.om_paint.specs.Paintings.{IsFirst, IsFirstIfAny, IsPaintingOf};
ghost use Rattle.om_paint.specs.Classes.{HasMinusAloneAt};
ghost use Rattle.om_paint.specs.Hulls.{all_plus, IsPositiveCircuit, IsExtreme, green_alone, IsCocircuitItem, EachItem};
ghost use Rattle.om_paint.specs.Hulls.{IsCyclic, IfCyclic};

use super::classes::{CLASSES, Firsts};
use super::hull_error::HullError;
use super::minuses::Minuses;
use super::search::{first_circuits, first_cocircuits};
use om_chirotope::Chirotope;
use om_oriented::{Oriented, Painted};
use om_signs::{List, MAX_ELEMENTS, MAX_PLACES, Sign, SignVec};
use std::alloc::Global;

/// Whether the oriented matroid is acyclic: the vector of all pluses is a covector. The call allocates no memory.
///
/// Source: Björner, Las Vergnas, Sturmfels, White and Ziegler, *Oriented Matroids*, chapter 3.
pub fn acyclic<M: Oriented>(m: &M) -> bool
    ensures { IsTrue result ↔ M.is_covector m.now (all_plus (M.elements m.now)) }
{
    m.is_covector(greatest(m.elements()))
}

/// The vector of a length whose signs are all plus.
fn greatest(length: u8) -> SignVec
    requires low { 1 ≤ length }
    requires high { length ≤ MAX_PLACES }
    ensures { result ≡ all_plus length }
{
    let mut x = SignVec::zero(length);
    for e in 1..length + 1 {
        x = x.set(e, Sign::Plus);
    }
    x
}

/// For each element of an acyclic oriented matroid, what shows whether it is extreme. This is the result of
/// [`paint`] with the element green and all others red. It is a cocircuit exactly if the element is extreme, so
/// that no circuit has it as its only minus place. Otherwise it is the first such circuit. The list has one item
/// for each element, in order. Its memory comes from `alloc`.
///
/// [`HullError::Cyclic`] comes exactly if the oriented matroid isn't acyclic, that is, exactly if some circuit has
/// no minus. It names the first such circuit. [`HullError::Memory`] comes only if memory runs out.
///
/// Source: Björner, Las Vergnas, Sturmfels, White and Ziegler, *Oriented Matroids*, chapter 3.
pub fn hull(alloc: Global, chi: &Chirotope) -> Result<List<Painted>, HullError>
    ensures cyclic { IsErrAnd result IsCyclic ↔ (IsCovectorOfChirotope chi.now (all_plus chi.now.elements) → ⊥) }
    ensures first { IfErr result (IfCyclic (IsFirst (IsPositiveCircuit chi.now))) }
    ensures acyclic { (IsErrAnd result IsCyclic → ⊥) ↔ ((X : List Signs) → IsPositiveCircuit chi.now X → ⊥) }
    ensures size { IfOk result (λ items. length items ≡ chi.now.elements) }
    ensures items { IfOk result (EachItem (λ e. IsPaintingOf chi.now (green_alone e) e) 1) }
    ensures extreme { IfOk result (EachItem (λ e item. IsCocircuitItem item ↔ IsExtreme chi.now e) 1) }
    ensures lawful { IsChirotope chi.now }
{
    let elements = chi.elements();
    let circuits = first_circuits(chi, &Minuses { elements });
    if let Some(x) = circuits[0] {
        return Err(HullError::Cyclic { x });
    }
    let cocircuits = first_cocircuits(chi, &Minuses { elements });
    let mut items = List::new(alloc);
    for e in 1..elements + 1 {
        items.push(evidence(chi, &circuits, &cocircuits, e))?;
    }
    Ok(items)
}

/// What fits at element e, with e green and all others red: the first circuit or the first cocircuit that has e as
/// its only minus. The element is from 1 to n.
fn evidence(chi: &Chirotope, circuits: &Firsts, cocircuits: &Firsts, e: u8) -> Painted
    requires lawful { IsChirotope chi.now }
    requires few { chi.now.elements ≤ MAX_ELEMENTS }
    requires low { 1 ≤ e }
    requires high { e ≤ chi.now.elements }
    requires circuits { (i : ℕ) → i < CLASSES
        → IsFirstIfAny (λ X. IsCircuitOfChirotope chi.now X × HasMinusAloneAt i X) (get_or circuits.now i None) }
    requires cocircuits { (i : ℕ) → i < CLASSES
        → IsFirstIfAny (λ X. IsCocircuitOfChirotope chi.now X × HasMinusAloneAt i X) (get_or cocircuits.now i None) }
    ensures painting { IsPaintingOf chi.now (green_alone e) e result }
    ensures extreme { IsCocircuitItem result ↔ IsExtreme chi.now e }
{
    match circuits[e as usize] {
        Some(x) => Painted::Circuit(x),
        // by the painting lemma, some cocircuit fits if no circuit does
        None => Painted::Cocircuit(cocircuits[e as usize].unwrap()),
    }
}
