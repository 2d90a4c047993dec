//! The form of a document in version 2.

ghost use Rattle.std.specs.Prelude.{◌≡◌, ℕ, ◌+◌, ◌-◌, ◌<◌, ◌≤◌, ◌∷◌, [], ◌++◌, map, filter, length, take, drop, OnOk};
ghost use Rattle.std.specs.Prelude.{IfOk, codes, decimal, slice_index_or};
ghost use Rattle.std.specs.List.{flat_map};
ghost use Rattle.std.specs.List.Sorted.{IsPermutation};
ghost use Rattle.om_signs.specs.declared.sign.Sign.TheVariants.{Zero};
ghost use Rattle.om_signs.specs.declared.limits.TheConstants.{MAX_ELEMENTS, MAX_INPUT};
ghost use Rattle.om_subsets.specs.Subsets.{choose};
ghost use Rattle.om_lines.specs.Words.{byte_of};
ghost use Rattle.om_lines.specs.Lines.{lines};
ghost use Rattle.om_document.specs.Members.{members_of};
ghost use Rattle.om_document.specs.Document.{IsDocument};
ghost use Rattle.om_document.specs.Form.{IsMapOn, IsBodyOn, IsInForm};
ghost use Rattle.om_document.specs.Print.{text_of, sign_lines, member_lines, spaced};
ghost use Rattle.om_document.specs.PrintTwo.{numbered_names, printed_names, values_in_revlex, begins_with_plus};
ghost use Rattle.om_document.specs.PrintTwo.{half_of, setting_lines, body_lines_two, printed_two, doubled_body};
ghost use Rattle.om_document.specs.PrintTwo.{doubled_document, IsClosedUnderNegation};

use super::body::Body;
use super::document::Document;
use super::name::Name;
use super::printer::{
    LINE_SIGNS, push_blocks, push_bytes, push_heading, push_member, push_points, sorted_members,
};
use om_lines::words::byte_of_sign;
use om_signs::{NoMemory, RawMap, Sign, SignVec};
use om_subsets::Subset;
use std::alloc::Global;

/// The name `e` with a number, after a space.
fn numbered_name(alloc: Global, number: u8) -> Result<Vec<u8>, NoMemory>
    ensures { IfOk result (λ bytes. bytes.items ≡ 32 ∷ 101 ∷ decimal number) }
{
    let text = format!(in alloc; " e{number}")?;
    Ok(text.into_bytes())
}

/// Appends numbered names for this many elements, each after a space.
fn push_numbered_names(out: &mut Vec<u8>, elements: u8) -> Result<(), NoMemory>
    ensures { OnOk result (out.new.items ≡ out.old.items ++ flat_map (λ w. 32 ∷ w) (numbered_names elements)) }
{
    for index in 0..elements {
        let name = numbered_name(*out.allocator(), index + 1)?;
        push_bytes(out, name.as_slice())?;
    }
    Ok(())
}

/// Appends a name, after a space.
fn push_name(out: &mut Vec<u8>, name: Name) -> Result<(), NoMemory>
    ensures { OnOk result (out.new.items ≡ out.old.items ++ 32 ∷ name) }
{
    out.push(b' ')?;
    push_bytes(out, name.as_bytes())
}

/// Appends names, each after a space.
fn push_names(out: &mut Vec<u8>, names: &[Name]) -> Result<(), NoMemory>
    ensures { OnOk result (out.new.items ≡ out.old.items ++ flat_map (λ w. 32 ∷ w) names.now) }
{
    for name in names {
        push_name(out, *name)?;
    }
    Ok(())
}

/// Appends the names, or numbered ones if there are none, each after a space.
fn push_printed_names(out: &mut Vec<u8>, elements: u8, names: &[Name]) -> Result<(), NoMemory>
    ensures { OnOk result (out.new.items
        ≡ out.old.items ++ flat_map (λ w. 32 ∷ w) (printed_names elements names.now)) }
{
    if names.is_empty() {
        push_numbered_names(out, elements)
    } else {
        push_names(out, names)
    }
}

/// Appends the line of names.
fn push_names_line(out: &mut Vec<u8>, elements: u8, names: &[Name]) -> Result<(), NoMemory>
    ensures { OnOk result (out.new.items
        ≡ out.old.items ++ text_of (spaced (codes "names" ∷ printed_names elements names.now) ∷ [])) }
{
    push_bytes(out, b"names")?;
    push_printed_names(out, elements, names)?;
    push_bytes(out, b"\n")
}

/// The value at an index in reverse lexicographic order of the sets.
fn value_at(raw: &RawMap, place: u32) -> Sign
    requires rank { raw.now.rank ≤ raw.now.elements }
    requires elements { raw.now.elements ≤ MAX_ELEMENTS }
    requires signs { length raw.now.signs ≡ choose raw.now.elements raw.now.rank }
    requires place { place < choose raw.now.elements raw.now.rank }
    ensures { result ≡ slice_index_or (values_in_revlex raw.now) place Zero }
{
    let subset = Subset::unrank_revlex(place, raw.rank, raw.elements);
    raw.signs.at(subset.rank() as usize)
}

/// Appends the values from one index up to another, in reverse lexicographic order of the sets, as a line.
fn push_value_row(out: &mut Vec<u8>, raw: &RawMap, first: u32, end: u32) -> Result<(), NoMemory>
    requires rank { raw.now.rank ≤ raw.now.elements }
    requires elements { raw.now.elements ≤ MAX_ELEMENTS }
    requires signs { length raw.now.signs ≡ choose raw.now.elements raw.now.rank }
    requires order { first ≤ end }
    requires end { end ≤ choose raw.now.elements raw.now.rank }
    ensures { OnOk result (out.new.items
        ≡ (out.old.items ++ map byte_of (take (end - first) (drop first (values_in_revlex raw.now)))) ++ 10 ∷ []) }
{
    for place in first..end {
        out.push(byte_of_sign(value_at(raw, place)))?;
    }
    out.push(b'\n')?;
    Ok(())
}

/// Appends the values of a map in reverse lexicographic order of the sets, in lines of 64 and a last shorter line.
fn push_values(out: &mut Vec<u8>, raw: &RawMap) -> Result<(), NoMemory>
    requires rank { raw.now.rank ≤ raw.now.elements }
    requires elements { raw.now.elements ≤ MAX_ELEMENTS }
    requires signs { length raw.now.signs ≡ choose raw.now.elements raw.now.rank }
    ensures { OnOk result (out.new.items ≡ out.old.items ++ text_of (sign_lines (values_in_revlex raw.now))) }
{
    let count = Subset::choose(raw.elements, raw.rank);
    let mut first = 0;
    while first < count {
        let end = first + (count - first).min(LINE_SIGNS as u32);
        push_value_row(out, raw, first, end)?;
        first = end;
    }
    Ok(())
}

/// Whether the first sign other than zero is plus, or there is none.
fn begins_with_plus(member: SignVec) -> bool
    ensures { result ≡ begins_with_plus member }
{
    // the first sign other than zero is the first place where a vector and its negative differ
    member.neg() <= member
}

/// Appends a member, as a line, if it begins with plus or is zero.
fn push_if_begun(out: &mut Vec<u8>, member: SignVec) -> Result<(), NoMemory>
    ensures { OnOk result (out.new.items
        ≡ out.old.items ++ text_of (member_lines (filter begins_with_plus (member ∷ [])))) }
{
    if begins_with_plus(member) {
        push_member(out, member)
    } else {
        Ok(())
    }
}

/// Appends those of the members that begin with plus or are zero, one per line.
fn push_begun(out: &mut Vec<u8>, members: &[SignVec]) -> Result<(), NoMemory>
    ensures { OnOk result (out.new.items
        ≡ out.old.items ++ text_of (member_lines (filter begins_with_plus members.now))) }
{
    for member in members {
        push_if_begun(out, *member)?;
    }
    Ok(())
}

/// Appends one of each pair of opposite members, sorted, one per line.
fn push_half(out: &mut Vec<u8>, members: &[SignVec]) -> Result<(), NoMemory>
    ensures { OnOk result (out.new.items ≡ out.old.items ++ text_of (member_lines (half_of members.now))) }
{
    let rows = sorted_members(*out.allocator(), members)?;
    push_begun(out, rows.as_slice())
}

/// Appends a list: its setting line, and half of its members.
fn push_list(out: &mut Vec<u8>, members: &[SignVec]) -> Result<(), NoMemory>
    ensures { OnOk result (out.new.items
        ≡ out.old.items ++ text_of (codes "half" ∷ member_lines (half_of members.now))) }
{
    push_bytes(out, b"half\n")?;
    push_half(out, members)
}

/// Appends a map: its setting line, and its values.
fn push_map(out: &mut Vec<u8>, raw: &RawMap) -> Result<(), NoMemory>
    requires rank { raw.now.rank ≤ raw.now.elements }
    requires elements { raw.now.elements ≤ MAX_ELEMENTS }
    requires signs { length raw.now.signs ≡ choose raw.now.elements raw.now.rank }
    ensures { OnOk result (out.new.items
        ≡ out.old.items ++ text_of (codes "order revlex" ∷ sign_lines (values_in_revlex raw.now))) }
{
    push_bytes(out, b"order revlex\n")?;
    push_values(out, raw)
}

/// Appends the setting line of a body, if it has one, and its lines.
fn push_body(out: &mut Vec<u8>, body: &Body, elements: u8) -> Result<(), NoMemory>
    requires high { elements ≤ MAX_ELEMENTS }
    requires form { IsBodyOn elements body.now }
    ensures { OnOk result (out.new.items
        ≡ out.old.items ++ text_of (setting_lines body.now ++ body_lines_two body.now)) }
{
    match body {
        Body::Chirotope(map) => push_map(out, map),
        Body::Circuits(members) | Body::Cocircuits(members) | Body::Covectors(members) => {
            push_list(out, members.as_slice())
        }
        Body::Wiring(blocks) => push_blocks(out, blocks.as_slice()),
        Body::Points(points) => push_points(out, points.as_slice()),
    }
}

/// Appends the form of a document in version 2.
fn push_document(out: &mut Vec<u8>, document: &Document) -> Result<(), NoMemory>
    requires { IsInForm document.now }
    ensures { OnOk result (out.new.items ≡ out.old.items ++ printed_two document.now) }
{
    push_heading(out, b"om 2\n", document)?;
    push_names_line(out, document.elements, document.names.as_slice())?;
    push_body(out, &document.body, document.elements)?;
    push_bytes(out, b"end\n")
}

/// The form of a document in version 2. It is the line `om 2`, the kind line with single spaces, the line `names`,
/// the setting line of the kind, the body and the line `end`. The line `names` has the names of the document, or
/// `e1`, `e2` and so on if it has none.
///
/// The setting line of a map is `order revlex`. Its values come in reverse lexicographic order of the sets, in
/// lines of 64 and a last shorter line.
///
/// The setting line of a list is `half`. Its members come one per line, sorted by the first position where they
/// differ, with `-` before `0` before `+`. Of each two opposite members only the one whose first sign other than
/// zero is `+` is printed. The zero vector is printed if it is a member.
///
/// A wiring and points have no setting line, and are printed as by [`crate::print`].
///
/// The document must have the forms and be within the limits that `om_text::parse` promises, and the negative of
/// each member of a list must be a member. Reading the printed text returns the document with these names, and with
/// the same members in another order. The text has at most [`om_signs::MAX_INPUT`] bytes. The call fails only if
/// memory runs out.
pub fn print_two(alloc: Global, document: &Document) -> Result<Vec<u8>, NoMemory>
    requires form { IsInForm document.now }
    requires closed { IsClosedUnderNegation document.now.body }
    ensures bytes { IfOk result (λ bytes. bytes.items ≡ printed_two document.now) }
    // The printed text is a document, with the names that are printed; a list's members are in another order.
    ensures again { IfOk result (λ bytes. IsDocument (lines bytes.items) (doubled_document document.now)) }
    // The printed text is no longer than an input may be.
    ensures short { IfOk result (λ bytes. length bytes.items ≤ MAX_INPUT) }
    // The members are the same.
    ensures members { IsPermutation (members_of document.now.body) (members_of (doubled_body document.now.body)) }
{
    let mut out = Vec::new(alloc);
    push_document(&mut out, document)?;
    Ok(out)
}
