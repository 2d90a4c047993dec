//! The documents of values. They have no names.

ghost use Rattle.std.specs.Prelude.{◌≡◌, ◌≢◌, ◌≤◌};
ghost use Rattle.om_signs.specs.declared.limits.TheConstants.{MAX_VALUES};
ghost use Rattle.om_subsets.specs.Subsets.{choose};
ghost use Rattle.om_document.specs.Form.{IsInForm};
ghost use Rattle.om_representation.specs.Axioms.{MeetsAxioms};
ghost use Rattle.om_representation.specs.Documents.{document_of, map_document, circuits_document, cocircuits_document};
ghost use Rattle.om_representation.specs.Documents.{covectors_document};
ghost use Rattle.om_representation.specs.Widths.{HasFewValuesUnlessRank3};

use super::representation::Representation;
use om_chirotope::Chirotope;
use om_circuits::{Circuits, Cocircuits};
use om_covectors::Covectors;
use om_document::{Body, Document};
use om_signs::List;
use std::alloc::Global;

/// The document of an oriented matroid. A chirotope has at most as many values as a document may hold; in rank 3
/// this is always so.
pub fn document_of(alloc: Global, representation: Representation) -> Document
    requires { HasFewValuesUnlessRank3 (document_of representation) }
    ensures form { IsInForm result }
    ensures axioms { MeetsAxioms result }
    ensures value { result ≡ document_of representation }
{
    match representation {
        Representation::Chirotope(chirotope) => map_document(alloc, chirotope),
        Representation::Circuits(circuits) => circuits_document(alloc, circuits),
        Representation::Cocircuits(cocircuits) => cocircuits_document(alloc, cocircuits),
        Representation::Covectors(covectors) => covectors_document(alloc, covectors),
    }
}

/// The document of a chirotope with at most as many values as a document may hold; in rank 3 this is always so.
pub fn map_document(alloc: Global, chirotope: Chirotope) -> Document
    requires { chirotope.rank ≢ 3 → choose chirotope.elements chirotope.rank ≤ MAX_VALUES }
    ensures form { IsInForm result }
    ensures axioms { MeetsAxioms result }
    ensures value { result ≡ map_document chirotope }
{
    let elements = chirotope.elements();
    narrow_map_document(alloc, elements, chirotope)
}

/// The document of a chirotope on `elements` elements, of any rank, with at most as many values as a document may
/// hold.
fn narrow_map_document(alloc: Global, elements: u8, chirotope: Chirotope) -> Document
    requires elements { elements ≡ chirotope.elements }
    requires few { choose chirotope.elements chirotope.rank ≤ MAX_VALUES }
    ensures form { IsInForm result }
    ensures axioms { MeetsAxioms result }
    ensures value { result ≡ map_document chirotope }
{
    Document {
        elements,
        body: Body::Chirotope(chirotope.into_raw()),
        names: List::new(alloc),
    }
}

/// The document of circuits.
pub fn circuits_document(alloc: Global, circuits: Circuits) -> Document
    ensures form { IsInForm result }
    ensures axioms { MeetsAxioms result }
    ensures value { result ≡ circuits_document circuits.0 }
{
    let Circuits(set) = circuits;
    let elements = set.elements();
    Document {
        elements,
        body: Body::Circuits(set.into_list()),
        names: List::new(alloc),
    }
}

/// The document of cocircuits.
pub fn cocircuits_document(alloc: Global, cocircuits: Cocircuits) -> Document
    ensures form { IsInForm result }
    ensures axioms { MeetsAxioms result }
    ensures value { result ≡ cocircuits_document cocircuits.0 }
{
    let Cocircuits(set) = cocircuits;
    let elements = set.elements();
    Document {
        elements,
        body: Body::Cocircuits(set.into_list()),
        names: List::new(alloc),
    }
}

/// The document of covectors.
pub fn covectors_document(alloc: Global, covectors: Covectors) -> Document
    ensures form { IsInForm result }
    ensures axioms { MeetsAxioms result }
    ensures value { result ≡ covectors_document covectors }
{
    let elements = covectors.elements();
    Document {
        elements,
        body: Body::Covectors(covectors.into_list()),
        names: List::new(alloc),
    }
}
