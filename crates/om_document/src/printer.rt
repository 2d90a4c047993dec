//! The canonical form.

ghost use Rattle.std.specs.Prelude.{◌≡◌, ◌+◌, ◌<◌, ◌≤◌, ◌-◌, ◌∷◌, [], ◌++◌, length, map, All, OnOk, IfOk, codes};
ghost use Rattle.std.specs.Prelude.{decimal};
ghost use Rattle.om_signs.specs.declared.limits.TheConstants.{MAX_INPUT};
ghost use Rattle.om_document.specs.declared.document.Document.{Document};
ghost use Rattle.om_lines.specs.Words.{byte_of};
ghost use Rattle.om_lines.specs.Lines.{lines};
ghost use Rattle.om_document.specs.Rows.{sorted};
ghost use Rattle.om_document.specs.Document.{IsDocument};
ghost use Rattle.om_document.specs.Form.{IsPoint, IsBodyOn, IsInForm};
ghost use Rattle.std.specs.Fmt.{signed_decimal};
ghost use Rattle.std.specs.Io.{StartsWith};
ghost use Rattle.om_document.specs.Print.{text_of, sign_lines, member_lines, block_lines, point_lines, body_lines};
ghost use Rattle.om_document.specs.Print.{kind_text, printed, sorted_document, unnamed_map};

use super::body::Body;
use super::document::Document;
use om_lines::words::byte_of_sign;
use om_signs::{Block, NoMemory, Sign, SignVec};
use std::alloc::Global;

/// How many signs of a map a line has.
pub const LINE_SIGNS: usize = 64;

/// Appends a line of signs.
fn push_row(out: &mut Vec<u8>, signs: &[Sign]) -> Result<(), NoMemory>
    ensures { OnOk result (out.new.items ≡ out.old.items ++ map byte_of signs.now ++ 10 ∷ []) }
{
    for sign in signs {
        out.push(byte_of_sign(*sign))?;
    }
    out.push(b'\n')?;
    Ok(())
}

/// Appends signs, in lines of 64 and a last shorter line.
fn push_rows(out: &mut Vec<u8>, signs: &[Sign]) -> Result<(), NoMemory>
    ensures { OnOk result (out.new.items ≡ out.old.items ++ text_of (sign_lines signs.now)) }
{
    let mut rest = signs;
    while !rest.is_empty() {
        let len = rest.len().min(LINE_SIGNS);
        push_row(out, &rest[..len])?;
        rest = &rest[len..];
    }
    Ok(())
}

/// Appends the signs of a sign vector, in the order of the elements: `-`, `0` or `+` for each. If memory runs out, some
/// of them may have been appended.
pub fn push_signs(out: &mut Vec<u8>, vector: SignVec) -> Result<(), NoMemory>
    ensures ok { OnOk result (out.new.items ≡ out.old.items ++ map byte_of vector) }
    ensures kept { StartsWith out.new.items out.old.items }
{
    for place in 0..vector.len() {
        out.push(byte_of_sign(vector.get(place + 1)))?;
    }
    Ok(())
}

/// Appends a sign vector, as a line.
pub fn push_member(out: &mut Vec<u8>, member: SignVec) -> Result<(), NoMemory>
    ensures { OnOk result (out.new.items ≡ out.old.items ++ map byte_of member ++ 10 ∷ []) }
{
    push_signs(out, member)?;
    out.push(b'\n')?;
    Ok(())
}

/// The members, sorted.
pub fn sorted_members(alloc: Global, members: &[SignVec]) -> Result<Vec<SignVec>, NoMemory>
    ensures { IfOk result (λ v. v.items ≡ sorted members.now) }
{
    let mut rows = Vec::from_slice(alloc, members)?;
    rows.sort()?;
    Ok(rows)
}

/// Appends members, one per line.
fn push_member_lines(out: &mut Vec<u8>, members: &[SignVec]) -> Result<(), NoMemory>
    ensures { OnOk result (out.new.items ≡ out.old.items ++ text_of (member_lines members.now)) }
{
    for member in members {
        push_member(out, *member)?;
    }
    Ok(())
}

/// Appends the members, sorted, one per line.
fn push_members(out: &mut Vec<u8>, members: &[SignVec]) -> Result<(), NoMemory>
    ensures { OnOk result (out.new.items ≡ out.old.items ++ text_of (member_lines (sorted members.now))) }
{
    let rows = sorted_members(*out.allocator(), members)?;
    push_member_lines(out, rows.as_slice())
}

/// The line of a point.
fn point_text(alloc: Global, x: i64, y: i64, z: i64) -> Result<Vec<u8>, NoMemory>
    ensures { IfOk result (λ bytes. bytes.items
        ≡ signed_decimal x ++ 32 ∷ (signed_decimal y ++ 32 ∷ (signed_decimal z ++ 10 ∷ []))) }
{
    let text = format!(in alloc; "{x} {y} {z}\n")?;
    Ok(text.into_bytes())
}

/// Appends a point, as a line.
fn push_point(out: &mut Vec<u8>, point: [i64; 3]) -> Result<(), NoMemory>
    requires { IsPoint point }
    ensures { OnOk result (out.new.items ≡ out.old.items ++ text_of (point_lines (point ∷ []))) }
{
    let [x, y, z] = point;
    let text = point_text(*out.allocator(), x, y, z)?;
    push_bytes(out, text.as_slice())
}

/// The line of a block.
fn block_text(alloc: Global, first: u16, last: u16) -> Result<Vec<u8>, NoMemory>
    ensures { IfOk result (λ bytes. bytes.items ≡ decimal first ++ 45 ∷ (decimal last ++ 10 ∷ [])) }
{
    let text = format!(in alloc; "{first}-{last}\n")?;
    Ok(text.into_bytes())
}

/// Appends a block, as a line.
fn push_block(out: &mut Vec<u8>, block: Block) -> Result<(), NoMemory>
    ensures { OnOk result (out.new.items ≡ out.old.items ++ text_of (block_lines (block ∷ []))) }
{
    let text = block_text(*out.allocator(), block.first, block.last)?;
    push_bytes(out, text.as_slice())
}

/// Appends blocks, one per line.
pub fn push_blocks(out: &mut Vec<u8>, blocks: &[Block]) -> Result<(), NoMemory>
    ensures { OnOk result (out.new.items ≡ out.old.items ++ text_of (block_lines blocks.now)) }
{
    for block in blocks {
        push_block(out, *block)?;
    }
    Ok(())
}

/// Appends points, one per line.
pub fn push_points(out: &mut Vec<u8>, points: &[[i64; 3]]) -> Result<(), NoMemory>
    requires { All IsPoint points.now }
    ensures { OnOk result (out.new.items ≡ out.old.items ++ text_of (point_lines points.now)) }
{
    for point in points {
        push_point(out, *point)?;
    }
    Ok(())
}

/// Appends bytes.
pub fn push_bytes(out: &mut Vec<u8>, bytes: &[u8]) -> Result<(), NoMemory>
    ensures { OnOk result (out.new.items ≡ out.old.items ++ bytes.now) }
{
    out.extend_from_slice(bytes)?;
    Ok(())
}

/// The kind line of a map.
fn map_line(alloc: Global, rank: u8, elements: u8) -> Result<Vec<u8>, NoMemory>
    ensures { IfOk result (λ bytes. bytes.items
        ≡ codes "chirotope " ++ (decimal rank ++ 32 ∷ (decimal elements ++ 10 ∷ []))) }
{
    let text = format!(in alloc; "chirotope {rank} {elements}\n")?;
    Ok(text.into_bytes())
}

/// The kind line of a kind other than a map.
fn list_line(alloc: Global, name: &str, elements: u8) -> Result<Vec<u8>, NoMemory>
    ensures { IfOk result (λ bytes. bytes.items ≡ name.now ++ 32 ∷ (decimal elements ++ 10 ∷ [])) }
{
    let text = format!(in alloc; "{name} {elements}\n")?;
    Ok(text.into_bytes())
}

/// The kind line.
fn kind_line(alloc: Global, document: &Document) -> Result<Vec<u8>, NoMemory>
    ensures { IfOk result (λ bytes. bytes.items ≡ text_of (kind_text document.now ∷ [])) }
{
    match &document.body {
        Body::Chirotope(map) => map_line(alloc, map.rank, document.elements),
        Body::Circuits(_) => list_line(alloc, "circuits", document.elements),
        Body::Cocircuits(_) => list_line(alloc, "cocircuits", document.elements),
        Body::Covectors(_) => list_line(alloc, "covectors", document.elements),
        Body::Wiring(_) => list_line(alloc, "wiring", document.elements),
        Body::Points(_) => list_line(alloc, "points", document.elements),
    }
}

/// Appends the first two lines: the given one, and the kind line.
pub fn push_heading(out: &mut Vec<u8>, version: &[u8], document: &Document) -> Result<(), NoMemory>
    ensures { OnOk result (out.new.items
        ≡ (out.old.items ++ version.now) ++ text_of (kind_text document.now ∷ [])) }
{
    push_bytes(out, version)?;
    let line = kind_line(*out.allocator(), document)?;
    push_bytes(out, line.as_slice())
}

fn push_body(out: &mut Vec<u8>, body: &Body, elements: u8) -> Result<(), NoMemory>
    requires { IsBodyOn elements body.now }
    ensures { OnOk result (out.new.items ≡ out.old.items ++ text_of (body_lines body.now)) }
{
    match body {
        Body::Chirotope(map) => push_rows(out, map.signs.as_slice()),
        Body::Circuits(members) | Body::Cocircuits(members) | Body::Covectors(members) => {
            push_members(out, members.as_slice())
        }
        Body::Wiring(blocks) => push_blocks(out, blocks.as_slice()),
        Body::Points(points) => push_points(out, points.as_slice()),
    }
}

/// Appends the canonical form of a document.
fn push_document(out: &mut Vec<u8>, document: &Document) -> Result<(), NoMemory>
    requires { IsInForm document.now }
    ensures { OnOk result (out.new.items ≡ out.old.items ++ printed document.now) }
{
    push_heading(out, b"om 1\n", document)?;
    push_body(out, &document.body, document.elements)?;
    push_bytes(out, b"end\n")
}

/// The canonical form of a document: the line `om 1`, the kind line with single spaces, the body and the line
/// `end`. The body has:
///
/// - the values of a map in lines of 64 and a last shorter line;
/// - the members of a list, one per line, sorted by the first position where they differ (`-` before `0` before `+`);
/// - the blocks of a wiring, one per line in order;
/// - the points, one per line in order, with single spaces.
///
/// The document must have the forms and be within the limits that `om_text::parse` promises:
///
/// - its numbers are in range;
/// - a map has a value for each set of its rank, and no more than [`om_signs::MAX_VALUES`];
/// - the members of a list are distinct and have a sign for each element;
/// - the positions of blocks are at most 999;
/// - there is a point for each element.
///
/// Reading the canonical form returns the document with its members sorted. The form has at most
/// [`om_signs::MAX_INPUT`] bytes. The call fails only if memory runs out.
pub fn print(alloc: Global, document: &Document) -> Result<Vec<u8>, NoMemory>
    requires form { IsInForm document.now }
    ensures bytes { IfOk result (λ bytes. bytes.items ≡ printed document.now) }
    // The printed text is a document, and reads as this one with its members sorted.
    ensures again { IfOk result (λ bytes. IsDocument (lines bytes.items) (sorted_document document.now)) }
    // The printed text is no longer than an input may be.
    ensures short { IfOk result (λ bytes. length bytes.items ≤ MAX_INPUT) }
{
    let mut out = Vec::new(alloc);
    push_document(&mut out, document)?;
    Ok(out)
}

/// Appends the canonical form of the document of a map.
fn push_map(out: &mut Vec<u8>, rank: u8, elements: u8, signs: &[Sign]) -> Result<(), NoMemory>
    ensures { OnOk result (out.new.items ≡ out.old.items ++ printed (unnamed_map rank elements signs.now)) }
{
    push_bytes(out, b"om 1\n")?;
    let line = map_line(*out.allocator(), rank, elements)?;
    push_bytes(out, line.as_slice())?;
    push_rows(out, signs)?;
    push_bytes(out, b"end\n")
}

/// The canonical form of the document of a map without names: what [`print`] gives for this document. The signs are
/// those of the increasing lists of `rank` elements, in lexicographic order of the lists. No sign is copied.
///
/// The call fails only if memory runs out.
pub fn print_map(alloc: Global, rank: u8, elements: u8, signs: &[Sign]) -> Result<Vec<u8>, NoMemory>
    ensures { IfOk result (λ bytes. bytes.items ≡ printed (unnamed_map rank elements signs.now)) }
{
    let mut out = Vec::new(alloc);
    push_map(&mut out, rank, elements, signs)?;
    Ok(out)
}
