//! Conversion of documents from one kind to another.

ghost use Rattle.std.specs.Prelude.{◌≡◌, IfOk};
ghost use Rattle.om_representation.specs.Documents.{document_of};
ghost use Rattle.om_representation.specs.Represented.{IsMeantFor};
ghost use Rattle.om_representation.specs.Widths.{HasFewValues};
ghost use Rattle.om_commands.specs.Conversions.{IsConversion, IsConversionFrom, IsUnlisted};

use om_chirotope::Chirotope;
use om_convert::{
    ConvertError, chirotope_to_circuits, chirotope_to_cocircuits, chirotope_to_covectors,
    covectors_to_cocircuits,
};
use om_covectors::Covectors;
use om_document::Kind;
use om_printing::Line;
use om_reply::Answer;
use om_representation::{
    Representation, choose_chirotope, circuits_document, cocircuits_document, covectors_document,
    map_document, width_line,
};
use om_signs::NoMemory;
use std::alloc::Global;

/// The document of a kind that denotes the same oriented matroid. A document of the kind itself is unchanged, and a
/// list becomes its normal chirotope.
///
/// If the chirotope of a list would have too many values, the answer is the line that says so. Else, if the new
/// list would have too many members, it is the line that says this.
pub fn convert(
    alloc: Global,
    representation: Representation,
    kind: Kind,
) -> Result<Answer, NoMemory>
    requires { HasFewValues (document_of representation) }
    ensures { IfOk result (IsMeantFor (IsConversion kind) representation) }
{
    match kind {
        Kind::Chirotope => to_chirotope(alloc, representation),
        Kind::Circuits => to_circuits(alloc, representation),
        Kind::Cocircuits => to_cocircuits(alloc, representation),
        Kind::Covectors => to_covectors(alloc, representation),
    }
}

/// The document of the chirotope of an oriented matroid.
fn to_chirotope(alloc: Global, representation: Representation) -> Result<Answer, NoMemory>
    requires { HasFewValues (document_of representation) }
    ensures { IfOk result (IsMeantFor (IsConversion Kind.Chirotope) representation) }
{
    match choose_chirotope(alloc, representation) {
        Ok(chirotope) => Ok(Answer::Document(map_document(alloc, chirotope))),
        Err(why) => Ok(Answer::Line(width_line(why)?)),
    }
}

/// The document of the circuits of an oriented matroid.
fn to_circuits(alloc: Global, representation: Representation) -> Result<Answer, NoMemory>
    ensures { IfOk result (IsMeantFor (IsConversion Kind.Circuits) representation) }
{
    match representation {
        Representation::Circuits(circuits) => Ok(Answer::Document(circuits_document(
            alloc, circuits,
        ))),
        Representation::Chirotope(chirotope) => list_circuits(alloc, &chirotope),
        Representation::Cocircuits(_) | Representation::Covectors(_) => {
            match choose_chirotope(alloc, representation) {
                Ok(chirotope) => list_circuits(alloc, &chirotope),
                Err(why) => Ok(Answer::Line(width_line(why)?)),
            }
        }
    }
}

/// The document of the circuits of a chirotope.
fn list_circuits(alloc: Global, chirotope: &Chirotope) -> Result<Answer, NoMemory>
    ensures { IfOk result (IsConversionFrom Kind.Circuits chirotope.now) }
{
    match chirotope_to_circuits(alloc, chirotope) {
        Ok(circuits) => Ok(Answer::Document(circuits_document(alloc, circuits))),
        Err(why) => refuse_list(why),
    }
}

/// The document of the cocircuits of an oriented matroid.
fn to_cocircuits(alloc: Global, representation: Representation) -> Result<Answer, NoMemory>
    ensures { IfOk result (IsMeantFor (IsConversion Kind.Cocircuits) representation) }
{
    match representation {
        Representation::Cocircuits(cocircuits) => {
            Ok(Answer::Document(cocircuits_document(alloc, cocircuits)))
        }
        Representation::Covectors(covectors) => list_minimal(alloc, &covectors),
        Representation::Chirotope(chirotope) => list_cocircuits(alloc, &chirotope),
        Representation::Circuits(_) => match choose_chirotope(alloc, representation) {
            Ok(chirotope) => list_cocircuits(alloc, &chirotope),
            Err(why) => Ok(Answer::Line(width_line(why)?)),
        },
    }
}

/// The document of the cocircuits of a chirotope.
fn list_cocircuits(alloc: Global, chirotope: &Chirotope) -> Result<Answer, NoMemory>
    ensures { IfOk result (IsConversionFrom Kind.Cocircuits chirotope.now) }
{
    match chirotope_to_cocircuits(alloc, chirotope) {
        Ok(cocircuits) => Ok(Answer::Document(cocircuits_document(alloc, cocircuits))),
        Err(why) => refuse_list(why),
    }
}

/// The document of the covectors of an oriented matroid.
fn to_covectors(alloc: Global, representation: Representation) -> Result<Answer, NoMemory>
    ensures { IfOk result (IsMeantFor (IsConversion Kind.Covectors) representation) }
{
    match representation {
        Representation::Covectors(covectors) => Ok(Answer::Document(covectors_document(
            alloc, covectors,
        ))),
        Representation::Chirotope(chirotope) => list_covectors(alloc, &chirotope),
        Representation::Circuits(_) | Representation::Cocircuits(_) => {
            match choose_chirotope(alloc, representation) {
                Ok(chirotope) => list_covectors(alloc, &chirotope),
                Err(why) => Ok(Answer::Line(width_line(why)?)),
            }
        }
    }
}

/// The document of the covectors of a chirotope.
fn list_covectors(alloc: Global, chirotope: &Chirotope) -> Result<Answer, NoMemory>
    ensures { IfOk result (IsConversionFrom Kind.Covectors chirotope.now) }
{
    match chirotope_to_covectors(alloc, chirotope) {
        Ok(covectors) => Ok(Answer::Document(covectors_document(alloc, covectors))),
        Err(why) => refuse_list(why),
    }
}

/// The document of the cocircuits of an oriented matroid, found from its covectors without a chirotope.
fn list_minimal(alloc: Global, covectors: &Covectors) -> Result<Answer, NoMemory>
    ensures { IfOk result (IsMeantFor (IsConversion Kind.Cocircuits) (Representation.Covectors covectors.now)) }
{
    match covectors_to_cocircuits(alloc, covectors) {
        Ok(cocircuits) => Ok(Answer::Document(cocircuits_document(alloc, cocircuits))),
        Err(why) => refuse_list(why),
    }
}

/// The answer to an error of a conversion. If memory ran out there is no answer.
fn refuse_list(why: ConvertError) -> Result<Answer, NoMemory>
    ensures { IfOk result (IsUnlisted why) }
{
    match why {
        ConvertError::TooWide { values } => Ok(Answer::Line(Line::LimitValues { values })),
        ConvertError::TooMany { limit } => Ok(Answer::Line(Line::LimitMembers { limit })),
        ConvertError::Memory => Err(NoMemory),
    }
}
