//! Deletion and contraction of one element of a chirotope.

ghost use Rattle.std.specs.Prelude.{ℕ, ◌≡◌, ◌≤◌, ◌<◌, ◌+◌, ◌-◌, ◌↔◌, IfOk, IsErrOf, length, map, true, false};
ghost use Rattle.om_signs.specs.declared.sign.Sign.TheVariants.{Plus};
ghost use Rattle.om_chirotope.specs.Map.{IsLedBy};
ghost use Rattle.om_chirotope.specs.Chirotope.{IsChirotope};
ghost use Rattle.om_denotation.specs.Covectors.{IsCovectorOfChirotope};
ghost use Rattle.om_denotation.specs.Operations.{IsDeletion, IsContraction};
ghost use Rattle.om_denotation.specs.Maps.{IsNormalFormOf};
ghost use Rattle.om_matroid.specs.Bases.{IsColoop, IsLoop};
ghost use Rattle.om_minors.specs.Minors.{deleted, contracted, IsNormalDeletion, IsNormalContraction};

use super::minor_error::MinorError;
use om_chirotope::Chirotope;
use om_denotation::{SignRule, normal_by};
use om_matroid::{is_coloop, is_loop};
use om_signs::{NoMemory, Sign};
use om_subsets::Subset;
use std::alloc::Global;

/// The normal chirotope of the deletion of e: its covectors are the covectors without their sign at e. The elements
/// after e are moved down by one, and e is from 1 to the number of elements. The rank stays the same, except that
/// the deletion of a coloop is its contraction, of one rank less. Memory for the signs comes from `alloc`.
///
/// [`MinorError::LastElement`] comes exactly if there is only one element, and [`MinorError::Memory`] only if
/// memory runs out.
///
/// Source: Björner, Las Vergnas, Sturmfels, White and Ziegler, *Oriented Matroids*, chapters 3 and 4.
pub fn delete_chirotope(alloc: Global, chi: &Chirotope, e: u8) -> Result<Chirotope, MinorError>
    requires low { 1 ≤ e }
    requires high { e ≤ chi.now.elements }
    ensures last_element { IsErrOf result MinorError.LastElement ↔ (chi.now.elements ≡ 1) }
    ensures elements { IfOk result (λ d. d.elements + 1 ≡ chi.now.elements) }
    ensures deletion { IfOk result (λ d.
        IsDeletion chi.now.elements e (IsCovectorOfChirotope chi.now) (IsCovectorOfChirotope d)) }
    ensures normal { IfOk result (λ d. IsLedBy Plus d.signs) }
    ensures value { IfOk result (λ d. (IsColoop chi.now e → ⊥) → IsNormalFormOf (deleted e chi.now) d) }
    ensures at_coloop { IfOk result (λ d. IsColoop chi.now e → IsNormalFormOf (contracted e chi.now) d) }
    ensures rank { IfOk result (λ d. (IsColoop chi.now e → ⊥) → d.rank ≡ chi.now.rank) }
    ensures rank_at_coloop { IfOk result (λ d. IsColoop chi.now e → d.rank + 1 ≡ chi.now.rank) }
{
    if chi.elements() == 1 {
        return Err(MinorError::LastElement);
    }
    Ok(deletion_beside_others(alloc, chi, e)?)
}

/// The normal chirotope of the contraction of e: its covectors are the covectors that are 0 at e, without their
/// sign there. The elements after e are moved down by one, and e is from 1 to the number of elements. The rank is
/// one less, except that the contraction of a loop is its deletion, of the same rank. Memory for the signs comes
/// from `alloc`.
///
/// [`MinorError::LastElement`] comes exactly if there is only one element, and [`MinorError::Memory`] only if
/// memory runs out.
///
/// Source: Björner, Las Vergnas, Sturmfels, White and Ziegler, *Oriented Matroids*, chapters 3 and 4.
pub fn contract_chirotope(alloc: Global, chi: &Chirotope, e: u8) -> Result<Chirotope, MinorError>
    requires low { 1 ≤ e }
    requires high { e ≤ chi.now.elements }
    ensures last_element { IsErrOf result MinorError.LastElement ↔ (chi.now.elements ≡ 1) }
    ensures elements { IfOk result (λ d. d.elements + 1 ≡ chi.now.elements) }
    ensures contraction { IfOk result (λ d.
        IsContraction chi.now.elements e (IsCovectorOfChirotope chi.now) (IsCovectorOfChirotope d)) }
    ensures normal { IfOk result (λ d. IsLedBy Plus d.signs) }
    ensures value { IfOk result (λ d. (IsLoop chi.now e → ⊥) → IsNormalFormOf (contracted e chi.now) d) }
    ensures at_loop { IfOk result (λ d. IsLoop chi.now e → IsNormalFormOf (deleted e chi.now) d) }
    ensures rank { IfOk result (λ d. (IsLoop chi.now e → ⊥) → d.rank + 1 ≡ chi.now.rank) }
    ensures rank_at_loop { IfOk result (λ d. IsLoop chi.now e → d.rank ≡ chi.now.rank) }
{
    if chi.elements() == 1 {
        return Err(MinorError::LastElement);
    }
    Ok(contraction_beside_others(alloc, chi, e)?)
}

/// The normal chirotope of the deletion of e, where other elements are left.
fn deletion_beside_others(alloc: Global, chi: &Chirotope, e: u8) -> Result<Chirotope, NoMemory>
    requires low { 1 ≤ e }
    requires high { e ≤ chi.now.elements }
    requires several { 2 ≤ chi.now.elements }
    requires lawful { IsChirotope chi.now }
    ensures { IfOk result (IsNormalDeletion e chi.now) }
{
    if is_coloop(chi, e) {
        general_contraction(alloc, chi, e)
    } else {
        general_deletion(alloc, chi, e)
    }
}

/// The normal chirotope of the contraction of e, where other elements are left.
fn contraction_beside_others(alloc: Global, chi: &Chirotope, e: u8) -> Result<Chirotope, NoMemory>
    requires low { 1 ≤ e }
    requires high { e ≤ chi.now.elements }
    requires several { 2 ≤ chi.now.elements }
    requires lawful { IsChirotope chi.now }
    ensures { IfOk result (IsNormalContraction e chi.now) }
{
    if is_loop(chi, e) {
        general_deletion(alloc, chi, e)
    } else {
        general_contraction(alloc, chi, e)
    }
}

/// The normal chirotope of the deletion of an element e that is no coloop: it has the signs of the lists without e.
fn general_deletion(alloc: Global, chi: &Chirotope, e: u8) -> Result<Chirotope, NoMemory>
    requires low { 1 ≤ e }
    requires high { e ≤ chi.now.elements }
    requires several { 2 ≤ chi.now.elements }
    requires avoided { IsColoop chi.now e → ⊥ }
    ensures { IfOk result (IsNormalFormOf (deleted e chi.now)) }
{
    normal_by(alloc, chi.rank(), chi.elements() - 1, &Deletion { chi, e })
}

/// The normal chirotope of the contraction of an element e that is no loop: it has the values of the tuples that
/// end with e.
fn general_contraction(alloc: Global, chi: &Chirotope, e: u8) -> Result<Chirotope, NoMemory>
    requires low { 1 ≤ e }
    requires high { e ≤ chi.now.elements }
    requires several { 2 ≤ chi.now.elements }
    requires used { IsLoop chi.now e → ⊥ }
    ensures { IfOk result (IsNormalFormOf (contracted e chi.now)) }
{
    normal_by(
        alloc,
        chi.rank() - 1,
        chi.elements() - 1,
        &Contraction { chi, e },
    )
}

/// The rule for the signs of a deletion.
#[derive(Drop)]
struct Deletion<'a> {
    chi: &'a Chirotope,
    e: u8,
}

impl SignRule for Deletion<'_> {
    ghost use Rattle.std.specs.Prelude.{◌≤◌, ◌-◌};
    ghost use Rattle.om_chirotope.specs.Map.{value_of};
    ghost use Rattle.om_chirotope.specs.Chirotope.{IsChirotopeWithinLimits};
    ghost use Rattle.om_laws.specs.Minors.{deletion};

    ghost rank = { λ d. d.chi.now.rank };

    ghost elements = { λ d. d.chi.now.elements - 1 };

    ghost rule = { λ d. deletion d.e (value_of d.chi.now) };

    ghost valid = { λ d. IsChirotopeWithinLimits d.chi.now × (1 ≤ d.e) × (d.e ≤ d.chi.now.elements) };

    fn sign(&self, s: Subset) -> Sign {
        self.chi.at(s.skipping(self.e))
    }
}

/// The rule for the signs of a contraction.
#[derive(Drop)]
struct Contraction<'a> {
    chi: &'a Chirotope,
    e: u8,
}

impl SignRule for Contraction<'_> {
    ghost use Rattle.std.specs.Prelude.{◌≤◌, ◌-◌};
    ghost use Rattle.om_chirotope.specs.Map.{value_of};
    ghost use Rattle.om_chirotope.specs.Chirotope.{IsChirotopeWithinLimits};
    ghost use Rattle.om_laws.specs.Minors.{contraction};

    ghost rank = { λ c. c.chi.now.rank - 1 };

    ghost elements = { λ c. c.chi.now.elements - 1 };

    ghost rule = { λ c. contraction c.e (value_of c.chi.now) };

    ghost valid = { λ c.
        IsChirotopeWithinLimits c.chi.now × (1 ≤ c.e) × (c.e ≤ c.chi.now.elements) × (1 ≤ c.chi.now.rank) };

    fn sign(&self, s: Subset) -> Sign {
        let others = s.skipping(self.e);
        let sign = self.chi.at(others.with(self.e));
        if others.odd_after(self.e) {
            sign.neg()
        } else {
            sign
        }
    }
}
