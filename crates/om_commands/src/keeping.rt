//! A document, held against the axioms of its kind and kept whole.

ghost use Rattle.std.specs.Prelude.{◌≡◌, ◌≢◌, ◌≤◌};
ghost use Rattle.om_signs.specs.declared.limits.TheConstants.{MAX_ELEMENTS};
ghost use Rattle.om_document.specs.Form.{IsInForm, AreBlocks};
ghost use Rattle.om_commands.specs.Given.{IsGiven};
ghost use Rattle.om_commands.specs.Keeping.{IsKept, unkept};

use om_document::{Body, Document, Name};
use om_representation::{
    DocumentRefused, Unrepresented, chirotope_of_points, document_of, represent, wiring_of_blocks,
};
use om_signs::{Block, List};
use std::alloc::Global;
use std::thread::Threads;

/// Why a document isn't kept.
#[derive(Clone, Copy)]
pub enum Unkept {
    /// It fails the axioms of its kind, and this is the first violated instance.
    Refused(DocumentRefused),
    /// Memory ran out.
    Memory,
}

impl Unkept {
    /// Why a document isn't kept that gives no oriented matroid. A flat wiring is kept.
    fn of(why: Unrepresented) -> Unkept
        requires { why ≢ Unrepresented.Flat }
        ensures { result ≡ unkept why }
    {
        match why {
            Unrepresented::Refused(why) => Unkept::Refused(why),
            _ => Unkept::Memory,
        }
    }
}

/// The document itself, with its names, if it satisfies the axioms of its kind. A flat wiring does.
///
/// No part of it is copied. A map or a list is taken back out of its oriented matroid, and blocks and points are
/// only inspected.
pub fn keep<R: Threads + Sync>(
    rt: &R,
    alloc: Global,
    document: Document,
) -> Result<Document, Unkept>
    requires { IsInForm document }
    ensures { IsKept document result }
{
    let Document {
        elements,
        body,
        names,
    } = document;
    match body {
        Body::Wiring(blocks) => keep_wiring(elements, blocks, names),
        Body::Points(points) => keep_points(alloc, elements, points, names),
        body => keep_given(rt, alloc, elements, body, names),
    }
}

/// The document of a map or of a list with these names, if it satisfies the axioms.
fn keep_given<R: Threads + Sync>(
    rt: &R,
    alloc: Global,
    elements: u8,
    body: Body,
    names: List<Name>,
) -> Result<Document, Unkept>
    requires form { IsInForm (record { elements = elements; body = body; names = names }) }
    requires given { IsGiven body }
    ensures { IsKept (record { elements = elements; body = body; names = names }) result }
{
    let nameless = Document {
        elements,
        body,
        names: List::new(alloc),
    };
    match represent(rt, alloc, nameless) {
        Ok(representation) => {
            let Document { elements, body, .. } = document_of(alloc, representation);
            Ok(Document {
                elements,
                body,
                names,
            })
        }
        Err(why) => Err(Unkept::of(why)),
    }
}

/// The document of a wiring with these names, if its blocks satisfy the axioms. The wiring may be flat.
fn keep_wiring(elements: u8, blocks: List<Block>, names: List<Name>) -> Result<Document, Unkept>
    requires low { 1 ≤ elements }
    requires high { elements ≤ MAX_ELEMENTS }
    requires blocks { AreBlocks blocks }
    ensures { IsKept (record { elements = elements; body = Body.Wiring blocks; names = names }) result }
{
    match wiring_of_blocks(elements, blocks) {
        Ok(wiring) => Ok(Document {
            elements,
            body: Body::Wiring(wiring.into_blocks()),
            names,
        }),
        Err(why) => Err(Unkept::Refused(why)),
    }
}

/// The document of points with these names, if their rank is 3.
fn keep_points(
    alloc: Global,
    elements: u8,
    points: List<[i64; 3]>,
    names: List<Name>,
) -> Result<Document, Unkept>
    requires form { IsInForm (record { elements = elements; body = Body.Points points; names = names }) }
    ensures { IsKept (record { elements = elements; body = Body.Points points; names = names }) result }
{
    match chirotope_of_points(alloc, points.as_slice()) {
        Ok(_) => Ok(Document {
            elements,
            body: Body::Points(points),
            names,
        }),
        Err(why) => Err(Unkept::of(why)),
    }
}
