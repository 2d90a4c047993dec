//! Reading a verdict block line by line.

ghost use Rattle.std.specs.Prelude.{◌≡◌, ◌+◌, ◌-◌, ◌≤◌, ◌^◌, length, IfOk};
ghost use Rattle.om_lines.specs.Lines.{runs, lines};
ghost use Rattle.om_document.specs.Heading.{plain_numbers};
ghost use Rattle.om_text.specs.ReaderParts.{IsStepUnlessMemory};
ghost use Rattle.om_text.specs.Parsed.{IsAnswerUnlessMemory};
ghost use Rattle.om_answer.specs.BlockLines.{vector_of, entry_of, weight_of, pivots_of, basis_of, some_of};
ghost use Rattle.om_signs.specs.declared.limits.TheConstants.{MAX_READ};
ghost use Rattle.om_answer.specs.Block.{MOST_VECTORS, MOST_WEIGHTS};
ghost use Rattle.om_answer.specs.BlockReading.{opened, next_item, another, with_tableau, with_basis, ended, block_step};
ghost use Rattle.om_answer.specs.BlockReading.{block_advance, block_outcome};

use super::block::{Block, Front};
use super::block_lines::{
    entry_line, pivots_line, rest_after, vector_line, weight_line, width_line,
};
use om_certificate::{Entry, LpEnd, Verdict, Weight};
use om_lines::lines::{before_comment, first_line, first_word, has_no_words, is_end, is_only_word};
use om_lines::words::plain_number;
use om_signs::{List, MAX_ELEMENTS, NoMemory};
use om_subsets::Subset;
use om_text::{Code, ParseError, Refusal};
use om_vectors::{Unfound, Word};
use std::alloc::Global;

/// The block that a verdict word opens.
fn opened_block(alloc: Global, line: &[u8]) -> Result<Block, Code>
    ensures { result ≡ opened (runs line.now) }
{
    if is_only_word(line, b"realizable") {
        Ok(Block::Vectors(Word::new()))
    } else if is_only_word(line, b"nonrealizable") {
        Ok(Block::Entries(List::new(alloc)))
    } else if is_only_word(line, b"undecided") {
        Ok(Block::Weights(List::new(alloc)))
    } else if is_only_word(line, b"limit") {
        Ok(Block::Tableau)
    } else {
        Err(Code::Claim)
    }
}

/// Appends the vector of one more line.
fn next_vector(alloc: Global, mut word: Word, line: &[u8]) -> Result<Word, Code>
    ensures { result ≡ next_item MOST_VECTORS word (vector_of (runs line.now)) }
{
    match vector_line(alloc, line) {
        None => Err(Code::Entry),
        Some(vector) => {
            if word.len() < MAX_ELEMENTS {
                word.push(vector);
                Ok(word)
            } else {
                Err(Code::Many)
            }
        }
    }
}

/// Appends the entry of one more line.
fn next_entry(alloc: Global, mut entries: List<Entry>, line: &[u8]) -> Result<List<Entry>, Refusal>
    ensures { IsStepUnlessMemory result (another entries (entry_of (runs line.now))) }
{
    match entry_line(alloc, line) {
        None => Err(Refusal::Line(Code::Entry)),
        Some(entry) => {
            entries.push(entry)?;
            Ok(entries)
        }
    }
}

/// Appends the weight of one more line.
fn next_weight(
    alloc: Global,
    mut weights: List<Weight>,
    line: &[u8],
) -> Result<List<Weight>, Refusal>
    ensures { IsStepUnlessMemory result (next_item MOST_WEIGHTS weights (weight_of (runs line.now))) }
{
    match weight_line(alloc, line) {
        None => Err(Refusal::Line(Code::Entry)),
        Some(weight) => {
            if weights.len() < Subset::choose(MAX_ELEMENTS, 3) as usize {
                weights.push(weight)?;
                Ok(weights)
            } else {
                Err(Refusal::Line(Code::Many))
            }
        }
    }
}

/// The unsigned numbers that the words of a line spell, if each word is one.
fn numbers_of_words(alloc: Global, line: &[u8]) -> Result<Option<List<u32>>, NoMemory>
    ensures { IfOk result (λ numbers. numbers ≡ plain_numbers (runs line.now)) }
{
    let mut numbers = List::new(alloc);
    let mut rest = line;
    while let Some((word, after)) = first_word(rest) {
        match plain_number(word) {
            None => return Ok(None),
            Some(number) => numbers.push(number)?,
        }
        rest = after;
    }
    Ok(Some(numbers))
}

/// The numbers, if there are any.
fn some_numbers(numbers: List<u32>) -> Option<List<u32>>
    ensures { result ≡ some_of numbers }
{
    if numbers.len() == 0 {
        None
    } else {
        Some(numbers)
    }
}

/// The numbers of a line `basis B1 B2 ..`.
fn basis_line(alloc: Global, line: &[u8]) -> Result<Option<List<u32>>, NoMemory>
    ensures { IfOk result (λ basis. basis ≡ basis_of (runs line.now)) }
{
    match rest_after(b"basis", line) {
        None => Ok(None),
        Some(rest) => Ok(numbers_of_words(alloc, rest)?.and_then(some_numbers)),
    }
}

/// The state after a line that has a budget of pivots or a width.
fn tableau_step(alloc: Global, line: &[u8]) -> Result<Block, Code>
    ensures { result ≡ with_tableau (pivots_of (runs line.now)) (runs line.now) }
{
    match pivots_line(alloc, line) {
        Some(count) => Ok(Block::Pivots(count)),
        None => match width_line(alloc, line) {
            Some(end) => Ok(Block::Tested(end)),
            None => Err(Code::Entry),
        },
    }
}

/// The state after a line that has the numbers of a basis.
fn pivots_step(alloc: Global, count: u32, line: &[u8]) -> Result<Block, Refusal>
    ensures { IsStepUnlessMemory result (with_basis count (basis_of (runs line.now))) }
{
    match basis_line(alloc, line)? {
        Some(basis) => Ok(Block::Tested(LpEnd::Pivots { count, basis })),
        None => Err(Refusal::Line(Code::Entry)),
    }
}

/// The verdict of what comes before the end of a search, and of this end.
fn verdict_of(front: Front, unfound: Unfound) -> Verdict
    ensures { result ≡ ended front unfound }
{
    match front {
        Front::Weights(weights) => Verdict::Undecided(weights, unfound),
        Front::Tableau(end) => Verdict::Limit(end, unfound),
    }
}

fn vectors_step(alloc: Global, word: Word, line: &[u8]) -> Result<Block, Code>
    ensures { result ≡ block_step (Block.Vectors word) (runs line.now) }
{
    if is_end(line) {
        return Ok(Block::Closed(Verdict::Realizable(word)));
    }
    Ok(Block::Vectors(next_vector(alloc, word, line)?))
}

fn entries_step(alloc: Global, entries: List<Entry>, line: &[u8]) -> Result<Block, Refusal>
    ensures { IsStepUnlessMemory result (block_step (Block.Entries entries) (runs line.now)) }
{
    if is_end(line) {
        return Ok(Block::Closed(Verdict::Nonrealizable(entries)));
    }
    Ok(Block::Entries(next_entry(alloc, entries, line)?))
}

fn weights_step(alloc: Global, weights: List<Weight>, line: &[u8]) -> Result<Block, Refusal>
    ensures { IsStepUnlessMemory result (block_step (Block.Weights weights) (runs line.now)) }
{
    if is_only_word(line, b"exhausted") {
        return Ok(Block::Exhausted(Front::Weights(weights)));
    }
    if is_only_word(line, b"frontier") {
        return Ok(Block::Frontier(Front::Weights(weights), Word::new()));
    }
    Ok(Block::Weights(next_weight(alloc, weights, line)?))
}

fn tested_step(end: LpEnd, line: &[u8]) -> Result<Block, Code>
    ensures { result ≡ block_step (Block.Tested end) (runs line.now) }
{
    if is_only_word(line, b"exhausted") {
        Ok(Block::Exhausted(Front::Tableau(end)))
    } else if is_only_word(line, b"frontier") {
        Ok(Block::Frontier(Front::Tableau(end), Word::new()))
    } else {
        Err(Code::Entry)
    }
}

fn exhausted_step(front: Front, line: &[u8]) -> Result<Block, Code>
    ensures { result ≡ block_step (Block.Exhausted front) (runs line.now) }
{
    if is_end(line) {
        Ok(Block::Closed(verdict_of(front, Unfound::Exhausted)))
    } else {
        Err(Code::Entry)
    }
}

fn frontier_step(alloc: Global, front: Front, word: Word, line: &[u8]) -> Result<Block, Code>
    ensures { result ≡ block_step (Block.Frontier front word) (runs line.now) }
{
    if is_end(line) {
        return Ok(Block::Closed(verdict_of(front, Unfound::Frontier(word))));
    }
    Ok(Block::Frontier(front, next_vector(alloc, word, line)?))
}

/// A code as a refusal.
fn at_fault(read: Result<Block, Code>) -> Result<Block, Refusal>
    ensures { IsStepUnlessMemory result read }
{
    read.map_err(Refusal::Line)
}

/// The state after one more line with words.
fn step(alloc: Global, block: Block, line: &[u8]) -> Result<Block, Refusal>
    ensures { IsStepUnlessMemory result (block_step block (runs line.now)) }
{
    match block {
        Block::Empty => at_fault(opened_block(alloc, line)),
        Block::Vectors(word) => at_fault(vectors_step(alloc, word, line)),
        Block::Entries(entries) => entries_step(alloc, entries, line),
        Block::Weights(weights) => weights_step(alloc, weights, line),
        Block::Tableau => at_fault(tableau_step(alloc, line)),
        Block::Pivots(count) => pivots_step(alloc, count, line),
        Block::Tested(end) => at_fault(tested_step(end, line)),
        Block::Exhausted(front) => at_fault(exhausted_step(front, line)),
        Block::Frontier(front, word) => at_fault(frontier_step(alloc, front, word, line)),
        Block::Closed(_) => Err(Refusal::Line(Code::After)),
    }
}

/// The state after one more line.
fn advance(alloc: Global, block: Block, line: &[u8]) -> Result<Block, Refusal>
    ensures { IsStepUnlessMemory result (block_advance block line.now) }
{
    let line = before_comment(line);
    if has_no_words(line) {
        Ok(block)
    } else {
        step(alloc, block, line)
    }
}

/// What the bytes of a block spell, after `line` lines before them: a verdict, or the first line at fault.
pub fn read_block(alloc: Global, bytes: &[u8], line: u32) -> Result<Verdict, ParseError>
    requires { line + length bytes.now ≤ MAX_READ }
    ensures { IsAnswerUnlessMemory result (block_outcome Block.Empty line (lines bytes.now)) }
{
    let mut rest = bytes;
    let mut count = line;
    let mut block = Block::Empty;
    while !rest.is_empty() {
        let (first, after) = first_line(rest);
        rest = after;
        count += 1;
        block = match advance(alloc, block, first) {
            Ok(next) => next,
            Err(Refusal::Memory) => return Err(ParseError::Memory),
            Err(Refusal::Line(code)) => return Err(ParseError::Line { line: count, code }),
        };
    }
    match block {
        Block::Closed(verdict) => Ok(verdict),
        _ => Err(ParseError::Line {
            line: count + 1,
            code: Code::Missing,
        }),
    }
}
