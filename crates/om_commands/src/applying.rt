//! The results of operations on oriented matroids.

ghost use Rattle.std.specs.Prelude.{◌≡◌, ◌≤◌, IfOk, OnOk, IsErrOf};
ghost use Rattle.om_signs.specs.declared.limits.TheConstants.{MAX_VALUES};
ghost use Rattle.om_subsets.specs.Subsets.{choose};
ghost use Rattle.om_denotation.specs.Covectors.{IsCovectorOfChirotope};
ghost use Rattle.om_representation.specs.Documents.{document_of, circuits_document, cocircuits_document};
ghost use Rattle.om_representation.specs.Documents.{covectors_document};
ghost use Rattle.om_reply.specs.Above.{first_above};
ghost use Rattle.om_commands.specs.Operations.{IsLawful, IsMapMade, IsOutcome, TakesOnly, named_elements};
ghost use Rattle.om_representation.specs.Widths.{HasFewValues};

use super::operation::Operation;
use super::unmade::Unmade;
use om_chirotope::Chirotope;
use om_circuits::{Circuits, Cocircuits};
use om_covectors::Covectors;
use om_dual::{dual, dual_circuits, dual_cocircuits, dual_covectors};
use om_minors::{
    MinorError, contract_chirotope, contract_circuits, contract_cocircuits, contract_covectors,
    delete_chirotope, delete_circuits, delete_cocircuits, delete_covectors, reorient_chirotope,
    reorient_circuits, reorient_cocircuits, reorient_covectors,
};
use om_representation::Representation;
use std::alloc::Global;

/// What an operation makes of an oriented matroid. It stays of the same kind, but the dual of circuits is a list of
/// cocircuits, and the dual of cocircuits is a list of circuits. A chirotope is normal. The elements that the operation
/// names are elements of the oriented matroid.
pub fn apply(
    alloc: Global,
    representation: Representation,
    operation: Operation,
) -> Result<Representation, Unmade>
    requires lawful { IsLawful operation }
    requires within { first_above (document_of representation).elements (named_elements operation) ≡ None }
    requires few { HasFewValues (document_of representation) }
    ensures { IsOutcome operation (document_of representation) result }
{
    match representation {
        Representation::Chirotope(chirotope) => {
            let made = apply_to_chirotope(alloc, chirotope, operation)?;
            Ok(Representation::Chirotope(made))
        }
        Representation::Circuits(circuits) => apply_to_circuits(alloc, circuits, operation),
        Representation::Cocircuits(cocircuits) => apply_to_cocircuits(alloc, cocircuits, operation),
        Representation::Covectors(covectors) => apply_to_covectors(alloc, covectors, operation),
    }
}

/// What an operation makes of a chirotope, as a normal chirotope. The elements that it names are elements of the
/// chirotope. `LastElement` comes exactly if it would take the only one away.
fn apply_to_chirotope(
    alloc: Global,
    chirotope: Chirotope,
    operation: Operation,
) -> Result<Chirotope, MinorError>
    requires lawful { IsLawful operation }
    requires within { first_above chirotope.elements (named_elements operation) ≡ None }
    requires few { choose chirotope.elements chirotope.rank ≤ MAX_VALUES }
    ensures few { IfOk result (λ m. choose m.elements m.rank ≤ MAX_VALUES) }
    ensures made { IfOk result (IsMapMade operation chirotope.elements (IsCovectorOfChirotope chirotope)) }
    ensures left { OnOk result (TakesOnly operation chirotope.elements → ⊥) }
    ensures last { IsErrOf result MinorError.LastElement → TakesOnly operation chirotope.elements }
{
    match operation {
        Operation::Dual => Ok(dual(alloc, &chirotope)?),
        Operation::Delete(e) => delete_chirotope(alloc, &chirotope, e),
        Operation::Contract(e) => contract_chirotope(alloc, &chirotope, e),
        Operation::Reorient(mask) => Ok(reorient_chirotope(chirotope, mask)),
    }
}

/// What an operation makes of circuits: circuits, and as their dual cocircuits.
fn apply_to_circuits(
    alloc: Global,
    circuits: Circuits,
    operation: Operation,
) -> Result<Representation, Unmade>
    requires lawful { IsLawful operation }
    requires within { first_above circuits.0.elements (named_elements operation) ≡ None }
    ensures { IsOutcome operation (circuits_document circuits.0) result }
{
    match operation {
        Operation::Dual => Ok(Representation::Cocircuits(dual_circuits(circuits))),
        Operation::Delete(e) => {
            let made = delete_circuits(alloc, &circuits, e)?;
            Ok(Representation::Circuits(made))
        }
        Operation::Contract(e) => {
            let made = contract_circuits(alloc, &circuits, e)?;
            Ok(Representation::Circuits(made))
        }
        Operation::Reorient(mask) => {
            Ok(Representation::Circuits(reorient_circuits(circuits, mask)))
        }
    }
}

/// What an operation makes of cocircuits: cocircuits, and as their dual circuits.
fn apply_to_cocircuits(
    alloc: Global,
    cocircuits: Cocircuits,
    operation: Operation,
) -> Result<Representation, Unmade>
    requires lawful { IsLawful operation }
    requires within { first_above cocircuits.0.elements (named_elements operation) ≡ None }
    ensures { IsOutcome operation (cocircuits_document cocircuits.0) result }
{
    match operation {
        Operation::Dual => Ok(Representation::Circuits(dual_cocircuits(cocircuits))),
        Operation::Delete(e) => {
            let made = delete_cocircuits(alloc, &cocircuits, e)?;
            Ok(Representation::Cocircuits(made))
        }
        Operation::Contract(e) => {
            let made = contract_cocircuits(alloc, &cocircuits, e)?;
            Ok(Representation::Cocircuits(made))
        }
        Operation::Reorient(mask) => {
            Ok(Representation::Cocircuits(reorient_cocircuits(cocircuits, mask)))
        }
    }
}

/// What an operation makes of covectors: covectors. The dual is made through the chirotope, which may be too wide.
/// The dual may also have too many covectors.
fn apply_to_covectors(
    alloc: Global,
    covectors: Covectors,
    operation: Operation,
) -> Result<Representation, Unmade>
    requires lawful { IsLawful operation }
    requires within { first_above covectors.elements (named_elements operation) ≡ None }
    ensures { IsOutcome operation (covectors_document covectors) result }
{
    match operation {
        Operation::Dual => {
            let made = dual_covectors(alloc, &covectors)?;
            Ok(Representation::Covectors(made))
        }
        Operation::Delete(e) => {
            let made = delete_covectors(alloc, &covectors, e)?;
            Ok(Representation::Covectors(made))
        }
        Operation::Contract(e) => {
            let made = contract_covectors(alloc, &covectors, e)?;
            Ok(Representation::Covectors(made))
        }
        Operation::Reorient(mask) => {
            Ok(Representation::Covectors(reorient_covectors(covectors, mask)))
        }
    }
}
