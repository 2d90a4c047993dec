//! The lines of a body.

ghost use Rattle.std.specs.Prelude.{◌≡◌, ℕ, ◌≤◌, ◌++◌, length, OnOk};
ghost use Rattle.std.specs.List.{concat};
ghost use Rattle.om_lines.specs.Lines.{runs};
ghost use Rattle.om_document.specs.Document.{signs_of_line};
ghost use Rattle.om_text.specs.Reading.{with_member, with_each, members_on};
ghost use Rattle.om_text.specs.ReaderParts.{IsStepUnlessMemory, IsMapInRange, IsBodyInRange, sign_count};
ghost use Rattle.om_text.specs.ReaderParts.{members_within_limit, members_with_line, blocks_with_line, body_with_line};

use super::blocks::block_of;
use super::points::point;
use super::refusal::Refusal;
use om_document::{Body, Code, Setting};
use om_lines::lines::{first_word, is_blank_byte};
use om_lines::words::{is_sign_byte, sign_of_byte};
use om_signs::{
    Block, List, MAX_BLOCKS, MAX_ELEMENTS, MAX_MEMBERS, NoMemory, RawMap, Sign, SignVec,
};
use om_subsets::Subset;

/// How many signs the words of a line have. None if they have a byte that is no sign.
fn sign_count(line: &[u8]) -> Option<usize>
    ensures { result ≡ sign_count (runs line.now) }
{
    let mut count = 0;
    for b in line {
        if is_sign_byte(*b) {
            count += 1;
        } else if !is_blank_byte(*b) {
            return None;
        }
    }
    Some(count)
}

/// Appends the signs of a line.
fn push_signs(signs: &mut List<Sign>, line: &[u8]) -> Result<(), NoMemory>
    ensures { OnOk result (signs.new ≡ signs.old ++ signs_of_line (runs line.now)) }
{
    for b in line {
        if !is_blank_byte(*b) {
            signs.push(sign_of_byte(*b))?;
        }
    }
    Ok(())
}

/// A map with the values of one more line.
fn with_values(mut map: RawMap, line: &[u8]) -> Result<Body, Refusal>
    requires { IsMapInRange map }
    ensures { (n : ℕ) (s : Setting)
        → IsStepUnlessMemory result (body_with_line s n (Body.Chirotope map) (runs line.now)) }
{
    let Some(count) = sign_count(line) else {
        return Err(Refusal::Line(Code::Sign));
    };
    let room = Subset::choose(map.elements, map.rank) as usize;
    let size = map.signs.len().saturating_add(count);
    if room < size {
        return Err(Refusal::Line(Code::Many));
    }
    push_signs(&mut map.signs, line)?;
    Ok(Body::Chirotope(map))
}

/// The sign vector that a line of `elements` signs spells.
fn sign_vector(elements: u8, line: &[u8]) -> SignVec
    requires low { 1 ≤ elements }
    requires high { elements ≤ MAX_ELEMENTS }
    requires len { length (concat (runs line.now)) ≡ elements }
    ensures { result ≡ signs_of_line (runs line.now) }
{
    let mut vector = SignVec::zero(elements);
    let mut e = 0u8;
    for b in line {
        if !is_blank_byte(*b) {
            e += 1;
            vector = vector.set(e, sign_of_byte(*b));
        }
    }
    vector
}

/// The members with one more, unless it is already there.
fn with_row(mut members: List<SignVec>, member: SignVec) -> Result<List<SignVec>, Refusal>
    ensures { IsStepUnlessMemory result (members_within_limit (with_member members member)) }
{
    if !members.as_slice().contains(&member) {
        members.push(member)?;
    }
    if MAX_MEMBERS < members.len() {
        return Err(Refusal::Line(Code::Many));
    }
    Ok(members)
}

/// The members with those of a line that gives this one.
fn with_row_members(
    setting: Setting,
    members: List<SignVec>,
    member: SignVec,
) -> Result<List<SignVec>, Refusal>
    ensures { IsStepUnlessMemory result (members_within_limit (with_each members (members_on setting member))) }
{
    match setting {
        Setting::Half => with_row(with_row(members, member)?, member.neg()),
        Setting::Plain | Setting::Revlex => with_row(members, member),
    }
}

/// The members of a list with those of one more line, which has a sign for each element.
fn with_list_line(
    setting: Setting,
    members: List<SignVec>,
    elements: u8,
    line: &[u8],
) -> Result<List<SignVec>, Refusal>
    requires low { 1 ≤ elements }
    requires high { elements ≤ MAX_ELEMENTS }
    ensures { IsStepUnlessMemory result (members_with_line setting elements members (runs line.now)) }
{
    match sign_count(line) {
        Some(count) if count == elements as usize => {
            with_row_members(setting, members, sign_vector(elements, line))
        }
        Some(_) => Err(Refusal::Line(Code::Length)),
        None => Err(Refusal::Line(Code::Sign)),
    }
}

/// The blocks with those of one more line.
fn with_words(mut blocks: List<Block>, line: &[u8]) -> Result<List<Block>, Refusal>
    ensures { IsStepUnlessMemory result (blocks_with_line blocks (runs line.now)) }
{
    let mut rest = line;
    while let Some((word, after)) = first_word(rest) {
        let Some(block) = block_of(word) else {
            return Err(Refusal::Line(Code::Block));
        };
        blocks.push(block)?;
        rest = after;
    }
    Ok(blocks)
}

/// A wiring with one more line.
fn with_blocks(blocks: List<Block>, line: &[u8]) -> Result<Body, Refusal>
    ensures { (n : ℕ) (s : Setting)
        → IsStepUnlessMemory result (body_with_line s n (Body.Wiring blocks) (runs line.now)) }
{
    let blocks = with_words(blocks, line)?;
    if MAX_BLOCKS < blocks.len() {
        return Err(Refusal::Line(Code::Many));
    }
    Ok(Body::Wiring(blocks))
}

/// The points with one more line.
fn with_point(mut points: List<[i64; 3]>, elements: u8, line: &[u8]) -> Result<Body, Refusal>
    ensures { (s : Setting)
        → IsStepUnlessMemory result (body_with_line s elements (Body.Points points) (runs line.now)) }
{
    let Some(found) = point(line) else {
        return Err(Refusal::Line(Code::Number));
    };
    if elements as usize <= points.len() {
        return Err(Refusal::Line(Code::Many));
    }
    points.push(found)?;
    Ok(Body::Points(points))
}

/// A body with one more line.
pub fn with_line(setting: Setting, body: Body, elements: u8, line: &[u8]) -> Result<Body, Refusal>
    requires low { 1 ≤ elements }
    requires high { elements ≤ MAX_ELEMENTS }
    requires small { IsBodyInRange body }
    ensures { IsStepUnlessMemory result (body_with_line setting elements body (runs line.now)) }
{
    match body {
        Body::Chirotope(map) => with_values(map, line),
        Body::Circuits(members) => {
            with_list_line(setting, members, elements, line).map(Body::Circuits)
        }
        Body::Cocircuits(members) => {
            with_list_line(setting, members, elements, line).map(Body::Cocircuits)
        }
        Body::Covectors(members) => {
            with_list_line(setting, members, elements, line).map(Body::Covectors)
        }
        Body::Wiring(blocks) => with_blocks(blocks, line),
        Body::Points(points) => with_point(points, elements, line),
    }
}
