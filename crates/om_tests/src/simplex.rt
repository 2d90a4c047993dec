//! Runs computed by hand, one for each kind of end; those that end at a width are computed by an exact run of their
//! own.

ghost use Rattle.std.specs.Prelude.{◌≤◌, ◌-◌, IsTrue};
ghost use Rattle.om_rows.specs.Rows.{IsPlace};
ghost use Rattle.om_simplex.specs.States.{IsColumn};

use super::helpers::hold;
use om_rows::Column;
use om_signs::{MAX_COLUMNS, MAX_PIVOTS, MAX_ROWS, NoMemory};
use om_simplex::{Count, Outcome, Stage, solve};
use std::alloc::Global;

/// A column with these places.
fn column(small0: u16, small1: u16, big0: u16, big1: u16, strict: bool) -> Column {
    Column {
        small0,
        small1,
        big0,
        big1,
        strict,
    }
}

/// Whether a place is one of this many rows other than the last.
fn is_place(place: u16, rows: u16) -> bool
    ensures { IsTrue result → IsPlace (rows - 1) place }
{
    1 <= place && place < rows
}

/// Whether the places of a column are rows other than the last.
fn fits(column: &Column, rows: u16) -> bool
    ensures { IsTrue result → IsColumn rows column.now }
{
    is_place(column.small0, rows)
        && is_place(column.small1, rows)
        && is_place(column.big0, rows)
        && is_place(column.big1, rows)
}

/// The end of the run over some columns with this many pivots, if they are columns with the given number of rows.
fn end_of(alloc: Global, columns: &[Column], rows: u16, pivots: u32) -> Result<Outcome, NoMemory>
    requires some { 1 ≤ pivots }
    requires few { pivots ≤ MAX_PIVOTS }
{
    let is_small = 2 <= rows && rows <= MAX_ROWS && columns.len() <= MAX_COLUMNS;
    if !is_small || !columns.iter().all(|column| fits(column, rows)) {
        return Err(NoMemory);
    }
    solve(alloc, columns, rows, pivots)
}

/// Whether a run ended by a combination that takes the columns this often, by these weights of the rows, or because
/// the pivots ran out, with these basis numbers. No list that ends a run is empty.
fn is_end(
    end: &Result<Outcome, NoMemory>,
    counts: &[Count],
    weights: &[i128],
    numbers: &[u32],
) -> bool {
    match end {
        Ok(Outcome::Balanced(found)) => found.as_slice() == counts,
        Ok(Outcome::Weights(found)) => found.as_slice() == weights,
        Ok(Outcome::PivotLimit { basis }) => basis.as_slice() == numbers,
        _ => false,
    }
}

/// The same for an owned end, which is dropped.
fn has_ended(
    end: Result<Outcome, NoMemory>,
    counts: &[Count],
    weights: &[i128],
    numbers: &[u32],
) -> bool {
    is_end(&end, counts, weights, numbers)
}

// Without columns all weights are 1. A column whose sides are equal is balanced alone. One pivot is enough for a
// column of four places, and not enough with a second column.
#[test]
fn ends(rt: HostRuntime) {
    let alloc = rt.alloc();
    let once = Count {
        column: 1,
        times: 1,
    };
    let around = column(1, 2, 2, 1, true);
    let (apart, back) = (column(1, 2, 3, 4, true), column(2, 2, 1, 1, true));
    hold(
        &rt,
        &[
            (
                "no columns",
                has_ended(end_of(alloc, &[], 3, 1), &[], &[1, 1], &[]),
            ),
            (
                "equal sides",
                has_ended(end_of(alloc, &[around], 3, 1), &[once], &[], &[]),
            ),
            (
                "one column, one pivot",
                has_ended(end_of(alloc, &[apart], 5, 1), &[], &[0, 1, 1, 1], &[]),
            ),
            (
                "two columns, one pivot",
                has_ended(
                    end_of(alloc, &[apart, back], 5, 1),
                    &[],
                    &[],
                    &[6, 2, 3, 4, 5],
                ),
            ),
        ],
    );
}

/// How a column of a chain relates the place j to the next place and to the last place but one, which is called z.
#[derive(Clone, Copy)]
enum Link {
    /// 2 at j; -1 at j + 1 and at z.
    Doubled,
    /// 1 at j + 1 and at z; -2 at j.
    Turned,
    /// 2 at j + 1; -1 at j and at z.
    Backward,
}

/// The column of a chain after the place j.
fn link_column(link: Link, j: u16, z: u16, strict: bool) -> Column {
    let next = j.saturating_add(1);
    match link {
        Link::Doubled => column(j, j, next, z, strict),
        Link::Turned => column(next, z, j, j, strict),
        Link::Backward => column(next, next, j, z, strict),
    }
}

/// A column that is 2 at one place and -2 at another.
fn step(small: u16, big: u16, strict: bool) -> Column {
    column(small, small, big, big, strict)
}

/// The most columns of a chain and around it.
const MOST: usize = 130;

/// The end of the run over a chain over the places 1 to n, in n + 2 rows, with one or two columns before or after
/// it. The arguments say how many come before it, and how many columns there are. Along the chain the numbers of
/// the tableau double.
fn end_of_chain(
    alloc: Global,
    link: Link,
    n: u16,
    strict: bool,
    steps: [Column; 2],
    before: u16,
    all: usize,
) -> Result<Outcome, NoMemory> {
    let [first, second] = steps;
    let mut columns = [second; MOST];
    for k in 0..MOST {
        // the number of the link, or 0 before the chain
        let j = (k as u16 + 1).saturating_sub(before);
        if 1 <= j && j < n {
            columns[k] = link_column(link, j, n.saturating_add(1), strict);
        } else if k == 0 || j == n {
            columns[k] = first;
        }
    }
    end_of(alloc, &columns[..all.min(MOST)], n.saturating_add(2), 1_000)
}

/// The stage, pivot, row and place of the width at which a run ended.
fn width_of(end: &Result<Outcome, NoMemory>) -> Option<(Stage, u32, u16, u32)> {
    match end {
        Ok(
            Outcome::Width {
                stage,
                pivot,
                row,
                place,
            },
        ) => Some((*stage, *pivot, *row, *place)),
        _ => None,
    }
}

/// Whether a run ended at a width, with this stage, pivot, row and place.
fn is_width(end: Result<Outcome, NoMemory>, width: (Stage, u32, u16, u32)) -> bool {
    width_of(&end) == Some(width)
}

// At a price, at a column and at an update. And at the end, by the common multiple of the denominators, by a value
// made integral by it, and by a weight.
#[test]
fn widths(rt: HostRuntime) {
    let alloc = rt.alloc();
    let price = [step(1, 128, true); 2];
    let column = [step(1, 129, true); 2];
    let update = [step(66, 1, true); 2];
    let multiple = [step(1, 66, false), step(66, 65, true)];
    let value = [step(65, 66, true), step(66, 1, false)];
    let weight = [step(1, 101, true); 2];
    hold(
        &rt,
        &[
            (
                "price",
                is_width(
                    end_of_chain(alloc, Link::Turned, 127, true, price, 1, 127),
                    (Stage::Price, 127, 0, 127),
                ),
            ),
            (
                "column",
                is_width(
                    end_of_chain(alloc, Link::Turned, 128, false, column, 0, 128),
                    (Stage::Column, 128, 130, 127),
                ),
            ),
            (
                "update",
                is_width(
                    end_of_chain(alloc, Link::Doubled, 66, false, update, 0, 66),
                    (Stage::Update, 66, 0, 1),
                ),
            ),
            (
                "multiple",
                is_width(
                    end_of_chain(alloc, Link::Backward, 65, false, multiple, 2, 66),
                    (Stage::Scale, 66, 0, 0),
                ),
            ),
            (
                "value",
                is_width(
                    end_of_chain(alloc, Link::Doubled, 65, false, value, 0, 66),
                    (Stage::Scale, 66, 1, 0),
                ),
            ),
            (
                "weight",
                is_width(
                    end_of_chain(alloc, Link::Turned, 100, true, weight, 0, 100),
                    (Stage::Scale, 100, 0, 100),
                ),
            ),
        ],
    );
}

// One link less than in the chain whose values are too great. Of 65 columns the 64th is taken once, each one before
// it twice as often as the next, and the last as often as the first, 2^63 times.
#[test]
fn greatest_counts(rt: HostRuntime) {
    let mut counts = [Count {
        column: 65,
        times: 1 << 63,
    }; 65];
    for k in 0..64u32 {
        counts[k as usize] = Count {
            column: k + 1,
            times: 1 << (63 - k),
        };
    }
    let steps = [step(64, 65, true), step(65, 1, false)];
    let found = end_of_chain(rt.alloc(), Link::Doubled, 64, false, steps, 0, 65);
    assert!(rt; has_ended(found, &counts, &[], &[]));
}
