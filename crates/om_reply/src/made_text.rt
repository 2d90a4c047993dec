//! The text of vectors that a number determines, and of their summary.

ghost use Rattle.std.specs.Prelude.{◌≡◌, ◌≤◌, ◌++◌, ◌∷◌, [], All, IfOk, OnOk, length, decimal, map};
ghost use Rattle.om_document.specs.Form.{IsPoint};
ghost use Rattle.om_document.specs.Print.{printed, text_of};
ghost use Rattle.om_reply.specs.VerdictText.{vector_numbers};
ghost use Rattle.om_reply.specs.MadeTexts.{made_text, points_document, tally_lines};

use om_document::{Body, Document, print};
use om_printing::pieces::{push, push_decimal, push_line_feed};
use om_signs::{List, MAX_ELEMENTS, NoMemory};
use om_vectors::{Tally, Vector, Word};
use std::alloc::Global;

/// The text of vectors and of their summary: the document of the points, and then a line for each count. The last
/// line says that both lists, converted back, equal the normal chirotope of the points.
pub fn print_made(alloc: Global, vectors: &Word, tally: &Tally) -> Result<Vec<u8>, NoMemory>
    requires { 1 ≤ length vectors.now }
    ensures { IfOk result (λ text. text.items ≡ made_text vectors.now tally.now) }
{
    let mut text = print_points(alloc, vectors)?;
    push_tally(&mut text, tally)?;
    Ok(text)
}

/// The text of the document whose points have the coordinates of the vectors.
fn print_points(alloc: Global, vectors: &Word) -> Result<Vec<u8>, NoMemory>
    requires { 1 ≤ length vectors.now }
    ensures { IfOk result (λ text. text.items ≡ printed (points_document vectors.now)) }
{
    let document = points_document(alloc, vectors)?;
    print(alloc, &document)
}

/// The document whose points have the coordinates of the vectors.
fn points_document(alloc: Global, vectors: &Word) -> Result<Document, NoMemory>
    ensures value { IfOk result (λ d. d ≡ points_document vectors.now) }
    ensures each { OnOk result (All IsPoint (map vector_numbers vectors.now)) }
    ensures few { OnOk result (length vectors.now ≤ MAX_ELEMENTS) }
{
    let mut points = List::new(alloc);
    for v in vectors.as_slice() {
        push_point(&mut points, v)?;
    }
    Ok(Document {
        elements: vectors.len(),
        body: Body::Points(points),
        names: List::new(alloc),
    })
}

/// Adds the point with the coordinates of a vector.
fn push_point(points: &mut List<[i64; 3]>, v: &Vector) -> Result<(), NoMemory>
    ensures pushed { OnOk result (points.new ≡ points.old ++ vector_numbers v.now ∷ []) }
    ensures point { OnOk result (IsPoint (vector_numbers v.now)) }
{
    points.push([v.x(), v.y(), v.z()])
}

/// Appends the lines of a summary.
fn push_tally(text: &mut Vec<u8>, tally: &Tally) -> Result<(), NoMemory>
    ensures { OnOk result (text.new.items ≡ text.old.items ++ text_of (tally_lines tally.now)) }
{
    push_count(text, b"plus ", tally.plus)?;
    push_count(text, b"zero ", tally.zero)?;
    push_count(text, b"minus ", tally.minus)?;
    push_count(text, b"cocircuits ", tally.cocircuits)?;
    push_count(text, b"covectors ", tally.covectors)?;
    push_count(text, b"mutations ", tally.mutations)?;
    push(text, b"back equal\n")
}

/// Appends a line with a name and a number.
fn push_count(text: &mut Vec<u8>, name: &[u8], count: u32) -> Result<(), NoMemory>
    ensures { OnOk result (text.new.items ≡ text.old.items ++ (name.now ++ decimal count ++ 10 ∷ [])) }
{
    push(text, name)?;
    push_decimal(text, count as u128)?;
    push_line_feed(text)
}
