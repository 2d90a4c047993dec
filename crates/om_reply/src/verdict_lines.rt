//! The lines of a verdict block, as printed.

ghost use Rattle.std.specs.Prelude.{◌≡◌, ◌++◌, ◌∷◌, [], OnOk, map, codes};
ghost use Rattle.std.specs.Fmt.{decimal};
ghost use Rattle.om_reply.specs.VerdictText.{word_line};
ghost use Rattle.om_reply.specs.VerdictText.{lines_text, tail_text, vector_words, entry_words, weight_words};
ghost use Rattle.om_reply.specs.VerdictText.{relation_name, search_lines, stage_name, tableau_lines, verdict_name};
ghost use Rattle.om_reply.specs.VerdictText.{verdict_lines, block_lines};

use om_certificate::{Entry, LpEnd, Verdict, Weight};
use om_printing::pieces::push;
use om_printing::{push_number, push_signed};
use om_signs::NoMemory;
use om_simplex::Stage;
use om_vectors::{Unfound, Vector};

/// Appends numbers, each after a space.
fn push_numbers(text: &mut Vec<u8>, numbers: &[u64]) -> Result<(), NoMemory>
    ensures { OnOk result (text.new.items ≡ text.old.items ++ tail_text (map decimal numbers.now)) }
{
    for number in numbers {
        push_number(text, u128::from(*number))?;
    }
    Ok(())
}

/// Appends a line: its name, then numbers.
fn push_named(text: &mut Vec<u8>, name: &[u8], numbers: &[u64]) -> Result<(), NoMemory>
    ensures { OnOk result (text.new.items ≡ text.old.items ++ lines_text ((name.now ∷ map decimal numbers.now) ∷ [])) }
{
    push(text, name)?;
    push_numbers(text, numbers)?;
    push(text, b"\n")
}

/// Appends a vector as a line.
fn push_vector(text: &mut Vec<u8>, vector: Vector) -> Result<(), NoMemory>
    ensures { OnOk result (text.new.items ≡ text.old.items ++ lines_text (vector_words vector ∷ [])) }
{
    push(text, b"vector")?;
    push_signed(text, i128::from(vector.x()))?;
    push_signed(text, i128::from(vector.y()))?;
    push_signed(text, i128::from(vector.z()))?;
    push(text, b"\n")
}

/// Appends vectors, one per line.
fn push_vectors(text: &mut Vec<u8>, vectors: &[Vector]) -> Result<(), NoMemory>
    ensures { OnOk result (text.new.items ≡ text.old.items ++ lines_text (map vector_words vectors.now)) }
{
    for vector in vectors {
        push_vector(text, *vector)?;
    }
    Ok(())
}

/// The name of the line of a statement, strict or not.
fn relation(strict: bool) -> &'static [u8]
    ensures { result.now ≡ relation_name strict }
{
    if strict { b"lt" } else { b"eq" }
}

/// Appends an entry as a line.
fn push_entry(text: &mut Vec<u8>, entry: Entry) -> Result<(), NoMemory>
    ensures { OnOk result (text.new.items ≡ text.old.items ++ lines_text (entry_words entry ∷ [])) }
{
    let Entry { statement, times } = entry;
    let numbers = [
        u64::from(statement.a),
        u64::from(statement.b),
        u64::from(statement.c),
        u64::from(statement.d),
        u64::from(statement.e),
        u64::from(statement.small),
        u64::from(statement.big),
        times,
    ];
    push_named(text, relation(statement.strict), &numbers)
}

/// Appends entries, one per line.
fn push_entries(text: &mut Vec<u8>, entries: &[Entry]) -> Result<(), NoMemory>
    ensures { OnOk result (text.new.items ≡ text.old.items ++ lines_text (map entry_words entries.now)) }
{
    for entry in entries {
        push_entry(text, *entry)?;
    }
    Ok(())
}

/// Appends a weight as a line.
fn push_weight(text: &mut Vec<u8>, weight: Weight) -> Result<(), NoMemory>
    ensures { OnOk result (text.new.items ≡ text.old.items ++ lines_text (weight_words weight ∷ [])) }
{
    push(text, b"weight")?;
    push_number(text, u128::from(weight.a))?;
    push_number(text, u128::from(weight.b))?;
    push_number(text, u128::from(weight.c))?;
    push_signed(text, weight.value)?;
    push(text, b"\n")
}

/// Appends weights, one per line.
fn push_weights(text: &mut Vec<u8>, weights: &[Weight]) -> Result<(), NoMemory>
    ensures { OnOk result (text.new.items ≡ text.old.items ++ lines_text (map weight_words weights.now)) }
{
    for weight in weights {
        push_weight(text, *weight)?;
    }
    Ok(())
}

/// Appends the lines of the end of a search.
fn push_search(text: &mut Vec<u8>, unfound: &Unfound) -> Result<(), NoMemory>
    ensures { OnOk result (text.new.items ≡ text.old.items ++ lines_text (search_lines unfound.now)) }
{
    match unfound {
        Unfound::Exhausted => push(text, b"exhausted\n"),
        Unfound::Frontier(word) => {
            push(text, b"frontier\n")?;
            push_vectors(text, word.as_slice())
        }
    }
}

/// The name of a stage, after the word `width`.
fn width_name(stage: Stage) -> &'static [u8]
    ensures { result.now ≡ codes "width " ++ stage_name stage }
{
    match stage {
        Stage::Price => b"width price",
        Stage::Column => b"width column",
        Stage::Update => b"width update",
        Stage::Scale => b"width scale",
    }
}

/// Appends the end of a tableau at a width, as a line.
fn push_width(
    text: &mut Vec<u8>,
    stage: Stage,
    pivot: u32,
    row: u16,
    place: u32,
) -> Result<(), NoMemory>
    ensures { OnOk result
        (text.new.items ≡ text.old.items ++ lines_text (tableau_lines (LpEnd.Width stage pivot row place))) }
{
    let numbers = [u64::from(pivot), u64::from(row), u64::from(place)];
    push_named(text, width_name(stage), &numbers)
}

/// Appends basis numbers, each after a space.
fn push_places(text: &mut Vec<u8>, basis: &[u32]) -> Result<(), NoMemory>
    ensures { OnOk result (text.new.items ≡ text.old.items ++ tail_text (map decimal basis.now)) }
{
    for place in basis {
        push_number(text, u128::from(*place))?;
    }
    Ok(())
}

/// Appends the lines of the end of a tableau at its budget of pivots.
fn push_pivots(text: &mut Vec<u8>, count: u32, basis: &[u32]) -> Result<(), NoMemory>
    ensures { OnOk result
        (text.new.items ≡ text.old.items ++ lines_text (tableau_lines (LpEnd.Pivots count basis.now))) }
{
    push_named(text, b"pivots", &[u64::from(count)])?;
    push(text, b"basis")?;
    push_places(text, basis)?;
    push(text, b"\n")
}

/// Appends the lines of the end of a tableau.
fn push_tableau(text: &mut Vec<u8>, end: &LpEnd) -> Result<(), NoMemory>
    ensures { OnOk result (text.new.items ≡ text.old.items ++ lines_text (tableau_lines end.now)) }
{
    match end {
        LpEnd::Pivots { count, basis } => push_pivots(text, *count, basis.as_slice()),
        LpEnd::Width {
            stage,
            pivot,
            row,
            place,
        } => push_width(text, *stage, *pivot, *row, *place),
    }
}

/// Appends the verdict word and the lines of what the verdict has.
fn push_lines(text: &mut Vec<u8>, verdict: &Verdict) -> Result<(), NoMemory>
    ensures { OnOk result
        (text.new.items ≡ text.old.items
        ++ lines_text (word_line (verdict_name verdict.now) ∷ verdict_lines verdict.now)) }
{
    match verdict {
        Verdict::Realizable(word) => {
            push(text, b"realizable\n")?;
            push_vectors(text, word.as_slice())
        }
        Verdict::Nonrealizable(entries) => {
            push(text, b"nonrealizable\n")?;
            push_entries(text, entries.as_slice())
        }
        Verdict::Undecided(weights, unfound) => {
            push(text, b"undecided\n")?;
            push_weights(text, weights.as_slice())?;
            push_search(text, unfound)
        }
        Verdict::Limit(end, unfound) => {
            push(text, b"limit\n")?;
            push_tableau(text, end)?;
            push_search(text, unfound)
        }
    }
}

/// Appends the block of a verdict.
pub fn push_block(text: &mut Vec<u8>, verdict: &Verdict) -> Result<(), NoMemory>
    ensures { OnOk result (text.new.items ≡ text.old.items ++ lines_text (block_lines verdict.now)) }
{
    push_lines(text, verdict)?;
    push(text, b"end\n")
}
