//! The lines of a verdict block.

ghost use Rattle.std.specs.Prelude.{◌≡◌, ◌≤◌, ◌++◌, MatchOption, IfSome, IfOk, Some, None, All, length};
ghost use Rattle.om_lines.specs.Lines.{runs};
ghost use Rattle.om_vectors.specs.WholeVectors.{vector_of as vector};
ghost use Rattle.om_signs.specs.Coordinates.{IsCoordinate};
ghost use Rattle.om_answer.specs.Numbers.{numbers_within, IsReadable, AreIn};
ghost use Rattle.om_answer.specs.BlockLines.{after_name, named_numbers, vector_ranges, vector_from, vector_of};
ghost use Rattle.om_answer.specs.BlockLines.{entry_ranges, entry_from, entry_of, strictness, increasing, weight_ranges};
ghost use Rattle.om_answer.specs.BlockLines.{weight_from, weight_of, pivots_ranges, count_from, pivots_of, stage_of};
ghost use Rattle.om_answer.specs.BlockLines.{width_ranges, width_from, width_after, width_of};

use super::numbers::{MOST_NUMBERS, numbers_of};
use super::range::Range;
use om_certificate::{Entry, LpEnd, Weight};
use om_grassmann::Statement;
use om_lines::lines::{first_word, same};
use om_signs::{
    MAX_COORDINATE, MAX_ELEMENTS, MAX_MULTIPLICITY, MAX_PIVOTS, MAX_PLAIN, MAX_ROW_NAMED,
    MAX_WEIGHT,
};
use om_simplex::Stage;
use om_vectors::Vector;
use smallvec::SmallVec;
use std::alloc::Global;

/// How many terms a statement has.
pub const TERMS: u64 = 3;

/// An element.
const ELEMENT: Range = Range::Between(1, MAX_ELEMENTS as u64);

/// One of the three terms of a statement.
const TERM: Range = Range::Between(1, TERMS);

/// The words after a name, if the line begins with this name.
pub fn rest_after<'a>(name: &[u8], line: &'a [u8]) -> Option<&'a [u8]>
    ensures { MatchOption result (after_name name.now (runs line.now) ≡ None)
        (λ rest. after_name name.now (runs line.now) ≡ Some (runs rest.now)) }
{
    let (word, rest) = first_word(line)?;
    if same(word, name) { Some(rest) } else { None }
}

/// The numbers of a line that begins with a name, each in its range.
fn numbers_after(
    alloc: Global,
    name: &[u8],
    ranges: &[Range],
    line: &[u8],
) -> Option<SmallVec<i128, MOST_NUMBERS>>
    requires few { length ranges.now ≤ MOST_NUMBERS }
    requires readable { All IsReadable ranges.now }
    ensures value { MatchOption result (named_numbers name.now ranges.now (runs line.now) ≡ None)
        (λ v. named_numbers name.now ranges.now (runs line.now) ≡ Some v.items) }
    ensures within { IfSome result (λ v. AreIn ranges.now v.items) }
{
    numbers_of(alloc, ranges, rest_after(name, line)?)
}

/// The same number in 64 bits.
fn coordinate(x: i128) -> i64
    requires { IsCoordinate x }
    ensures { result ≡ x }
{
    x as i64
}

/// The vector with these coordinates.
fn small_vector(x: i128, y: i128, z: i128) -> Option<Vector>
    requires x { IsCoordinate x }
    requires y { IsCoordinate y }
    requires z { IsCoordinate z }
    ensures { result ≡ Some (vector x y z) }
{
    Vector::new(coordinate(x), coordinate(y), coordinate(z))
}

/// The vector with three coordinates.
fn vector_of_numbers(numbers: &[i128]) -> Option<Vector>
    requires { AreIn vector_ranges numbers.now }
    ensures { result ≡ vector_from numbers.now }
{
    match numbers {
        [x, y, z] => small_vector(*x, *y, *z),
        _ => None,
    }
}

/// The vector of a line `vector x y z`.
pub fn vector_line(alloc: Global, line: &[u8]) -> Option<Vector>
    ensures { result ≡ vector_of (runs line.now) }
{
    let coordinate = Range::UpToSize(MAX_COORDINATE as u128);
    let ranges = [coordinate, coordinate, coordinate];
    let numbers = numbers_after(alloc, b"vector", &ranges, line)?;
    vector_of_numbers(numbers.as_slice())
}

/// The entry with these numbers.
fn entry_of_numbers(strict: bool, numbers: &[i128]) -> Option<Entry>
    requires { AreIn entry_ranges numbers.now }
    ensures { result ≡ entry_from strict numbers.now }
{
    match numbers {
        [a, b, c, d, e, small, big, times] => Some(Entry {
            statement: Statement {
                a: *a as u8,
                b: *b as u8,
                c: *c as u8,
                d: *d as u8,
                e: *e as u8,
                small: *small as u8,
                big: *big as u8,
                strict,
            },
            times: *times as u64,
        }),
        _ => None,
    }
}

/// Whether the statement of a line with this name is strict.
fn strictness_of(name: &[u8]) -> Option<bool>
    ensures { result ≡ strictness name.now }
{
    if same(name, b"lt") {
        Some(true)
    } else if same(name, b"eq") {
        Some(false)
    } else {
        None
    }
}

/// The numbers of an entry.
fn entry_numbers(alloc: Global, line: &[u8]) -> Option<SmallVec<i128, MOST_NUMBERS>>
    ensures value { MatchOption result (numbers_within entry_ranges (runs line.now) ≡ None)
        (λ v. numbers_within entry_ranges (runs line.now) ≡ Some v.items) }
    ensures within { IfSome result (λ v. AreIn entry_ranges v.items) }
{
    let times = Range::Between(1, MAX_MULTIPLICITY);
    let ranges = [
        ELEMENT, ELEMENT, ELEMENT, ELEMENT, ELEMENT, TERM, TERM, times,
    ];
    numbers_of(alloc, &ranges, line)
}

/// The entry of a line `lt a b c d e small big m` or `eq a b c d e small big m`.
pub fn entry_line(alloc: Global, line: &[u8]) -> Option<Entry>
    ensures { result ≡ entry_of (runs line.now) }
{
    let (name, rest) = first_word(line)?;
    let strict = strictness_of(name)?;
    let numbers = entry_numbers(alloc, rest)?;
    entry_of_numbers(strict, numbers.as_slice())
}

/// The weight with these numbers, if the elements are increasing.
fn weight_of_numbers(numbers: &[i128]) -> Option<Weight>
    requires { AreIn weight_ranges numbers.now }
    ensures { result ≡ weight_from numbers.now }
{
    match numbers {
        [a, b, c, value] => increasing_weight(Weight {
            a: *a as u8,
            b: *b as u8,
            c: *c as u8,
            value: *value,
        }),
        _ => None,
    }
}

/// The weight, if its elements are increasing.
fn increasing_weight(weight: Weight) -> Option<Weight>
    ensures { result ≡ increasing weight }
{
    if weight.a < weight.b && weight.b < weight.c {
        Some(weight)
    } else {
        None
    }
}

/// The weight of a line `weight a b c w`.
pub fn weight_line(alloc: Global, line: &[u8]) -> Option<Weight>
    ensures { result ≡ weight_of (runs line.now) }
{
    let ranges = [
        ELEMENT,
        ELEMENT,
        ELEMENT,
        Range::UpToSize(MAX_WEIGHT as u128),
    ];
    let numbers = numbers_after(alloc, b"weight", &ranges, line)?;
    weight_of_numbers(numbers.as_slice())
}

/// The only number, as a count.
fn count_of_numbers(numbers: &[i128]) -> Option<u32>
    requires { AreIn pivots_ranges numbers.now }
    ensures { result ≡ count_from numbers.now }
{
    match numbers {
        [count] => Some(*count as u32),
        _ => None,
    }
}

/// The budget of pivots of a line `pivots P`.
pub fn pivots_line(alloc: Global, line: &[u8]) -> Option<u32>
    ensures { result ≡ pivots_of (runs line.now) }
{
    let ranges = [Range::Between(0, MAX_PIVOTS as u64)];
    let numbers = numbers_after(alloc, b"pivots", &ranges, line)?;
    count_of_numbers(numbers.as_slice())
}

/// The stage with this name.
fn stage_of_name(name: &[u8]) -> Option<Stage>
    ensures { result ≡ stage_of name.now }
{
    if same(name, b"price") {
        Some(Stage::Price)
    } else if same(name, b"column") {
        Some(Stage::Column)
    } else if same(name, b"update") {
        Some(Stage::Update)
    } else if same(name, b"scale") {
        Some(Stage::Scale)
    } else {
        None
    }
}

/// The end of a tableau at a width, with these numbers.
fn width_of_numbers(stage: Stage, numbers: &[i128]) -> Option<LpEnd>
    requires { AreIn width_ranges numbers.now }
    ensures { result ≡ width_from stage numbers.now }
{
    match numbers {
        [pivot, row, place] => Some(LpEnd::Width {
            stage,
            pivot: *pivot as u32,
            row: *row as u16,
            place: *place as u32,
        }),
        _ => None,
    }
}

/// The end of a tableau after the word `width`.
fn width_of_words(alloc: Global, line: &[u8]) -> Option<LpEnd>
    ensures { result ≡ width_after (runs line.now) }
{
    let (name, rest) = first_word(line)?;
    let stage = stage_of_name(name)?;
    let ranges = [
        Range::Between(0, MAX_PIVOTS as u64 + 1),
        Range::Between(0, MAX_ROW_NAMED as u64),
        Range::Between(0, MAX_PLAIN as u64),
    ];
    let numbers = numbers_of(alloc, &ranges, rest)?;
    width_of_numbers(stage, numbers.as_slice())
}

/// The end of a tableau of a line `width STAGE p r c`.
pub fn width_line(alloc: Global, line: &[u8]) -> Option<LpEnd>
    ensures { result ≡ width_of (runs line.now) }
{
    width_of_words(alloc, rest_after(b"width", line)?)
}
