//! The chirotope on which commands work.

ghost use Rattle.std.specs.Prelude.{IfOk, IfErr, OnOk};
ghost use Rattle.om_representation.specs.Chirotopes.{IsChirotopeOf, IsNormalChirotopeOf};
ghost use Rattle.om_representation.specs.Documents.{document_of, circuits_document, cocircuits_document};
ghost use Rattle.om_representation.specs.Documents.{covectors_document};
ghost use Rattle.om_representation.specs.Widths.{IsKept, IsUnchosen};

use super::representation::Representation;
use super::unchosen::Unchosen;
use om_chirotope::Chirotope;
use om_circuits::{Circuits, Cocircuits};
use om_convert::{
    ConvertError, circuits_to_chirotope, cocircuits_to_chirotope, covectors_to_chirotope,
    rank_circuits, rank_cocircuits, rank_covectors,
};
use om_covectors::Covectors;
use std::alloc::Global;

/// The chirotope on which commands work: the given one, or the normal chirotope of a list. It has at most as many
/// values as a document may hold, or it is the given one.
///
/// [`Unchosen::TooWide`] comes if the chirotope of a list has more values. [`Unchosen::Memory`] comes only for
/// lists.
pub fn choose_chirotope(
    alloc: Global,
    representation: Representation,
) -> Result<Chirotope, Unchosen>
    ensures chosen { IfOk result (IsChirotopeOf (document_of representation)) }
    ensures kept { OnOk result (IsKept (document_of representation)) }
    ensures refused { IfErr result (IsUnchosen (document_of representation)) }
{
    match representation {
        Representation::Chirotope(chirotope) => Ok(chirotope),
        Representation::Circuits(circuits) => of_circuits(alloc, &circuits),
        Representation::Cocircuits(cocircuits) => of_cocircuits(alloc, &cocircuits),
        Representation::Covectors(covectors) => of_covectors(alloc, &covectors),
    }
}

/// The normal chirotope of circuits.
fn of_circuits(alloc: Global, circuits: &Circuits) -> Result<Chirotope, Unchosen>
    ensures chosen { IfOk result (IsNormalChirotopeOf (circuits_document circuits.now.0)) }
    ensures kept { OnOk result (IsKept (circuits_document circuits.now.0)) }
    ensures refused { IfErr result (IsUnchosen (circuits_document circuits.now.0)) }
{
    match circuits_to_chirotope(alloc, circuits) {
        Ok(chirotope) => Ok(chirotope),
        Err(error) => match error {
            ConvertError::TooWide { values } => Err(Unchosen::TooWide {
                rank: rank_circuits(circuits),
                values,
            }),
            _ => Err(Unchosen::from(error.memory_alone())),
        },
    }
}

/// The normal chirotope of cocircuits.
fn of_cocircuits(alloc: Global, cocircuits: &Cocircuits) -> Result<Chirotope, Unchosen>
    ensures chosen { IfOk result (IsNormalChirotopeOf (cocircuits_document cocircuits.now.0)) }
    ensures kept { OnOk result (IsKept (cocircuits_document cocircuits.now.0)) }
    ensures refused { IfErr result (IsUnchosen (cocircuits_document cocircuits.now.0)) }
{
    match cocircuits_to_chirotope(alloc, cocircuits) {
        Ok(chirotope) => Ok(chirotope),
        Err(error) => match error {
            ConvertError::TooWide { values } => Err(Unchosen::TooWide {
                rank: rank_cocircuits(cocircuits),
                values,
            }),
            _ => Err(Unchosen::from(error.memory_alone())),
        },
    }
}

/// The normal chirotope of covectors.
fn of_covectors(alloc: Global, covectors: &Covectors) -> Result<Chirotope, Unchosen>
    ensures chosen { IfOk result (IsNormalChirotopeOf (covectors_document covectors.now)) }
    ensures kept { OnOk result (IsKept (covectors_document covectors.now)) }
    ensures refused { IfErr result (IsUnchosen (covectors_document covectors.now)) }
{
    match covectors_to_chirotope(alloc, covectors) {
        Ok(chirotope) => Ok(chirotope),
        Err(error) => match error {
            ConvertError::TooWide { values } => Err(Unchosen::TooWide {
                rank: rank_covectors(covectors),
                values,
            }),
            _ => Err(Unchosen::from(error.memory_alone())),
        },
    }
}
