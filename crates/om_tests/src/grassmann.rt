//! Statements on chirotopes whose signs are all plus, and an equation on the Pappus configuration.

use super::helpers::hold;
use super::maps::PAPPUS;
use om_chirotope::Chirotope;
use om_grassmann::{
    Statement, brackets_of_lawful_statements, following, lawful, nth_statement, sides,
};
use om_samples::{SampleError, chirotope_of};

/// All lawful statements on five elements, in order: five elements and the numbers of the small and the big term.
/// Each of them is strict.
const TEN: [[u8; 7]; 10] = [
    [1, 2, 3, 4, 5, 1, 2],
    [1, 2, 3, 4, 5, 3, 2],
    [2, 1, 3, 4, 5, 1, 2],
    [2, 1, 3, 4, 5, 3, 2],
    [3, 1, 2, 4, 5, 1, 2],
    [3, 1, 2, 4, 5, 3, 2],
    [4, 1, 2, 3, 5, 1, 2],
    [4, 1, 2, 3, 5, 3, 2],
    [5, 1, 2, 3, 4, 1, 2],
    [5, 1, 2, 3, 4, 3, 2],
];

/// The statement with these numbers.
fn statement(numbers: [u8; 7], strict: bool) -> Statement {
    let [a, b, c, d, e, small, big] = numbers;
    Statement {
        a,
        b,
        c,
        d,
        e,
        small,
        big,
        strict,
    }
}

/// Whether the strict statement with a number is this one, and is lawful, and the next number has the next
/// statement.
fn is_at(chi: &Chirotope, k: u32, numbers: [u8; 7]) -> bool {
    match nth_statement(chi, k) {
        Some(found) => {
            found == statement(numbers, true)
                && lawful(chi, found)
                && following(chi, found) == nth_statement(chi, k.saturating_add(1))
        }
        None => false,
    }
}

/// An equation, a statement with an element out of range, and two with terms that are none of the three: their
/// numbers, and whether they are strict. None of them is lawful.
const UNLAWFUL: [([u8; 7], bool); 4] = [
    ([1, 2, 3, 4, 5, 1, 2], false),
    ([0, 2, 3, 4, 5, 1, 2], true),
    ([1, 2, 3, 4, 5, 0, 2], true),
    ([1, 2, 3, 4, 5, 2, 4], true),
];

/// Whether the statements with the numbers from 0 on are these and no other follows, and no unlawful one is lawful.
/// If there are none, the first statement of five elements isn't lawful either.
fn are_all(chi: &Chirotope, list: &[[u8; 7]]) -> bool {
    let mut k: u32 = 0;
    for numbers in list {
        if !is_at(chi, k, *numbers) {
            return false;
        }
        k = k.saturating_add(1);
    }
    for (numbers, strict) in UNLAWFUL.iter() {
        if lawful(chi, statement(*numbers, *strict)) {
            return false;
        }
    }
    [nth_statement(chi, k), nth_statement(chi, u32::MAX)] == [None; 2]
        && lawful(chi, statement(TEN[0], true)) != list.is_empty()
}

/// Whether a statement is lawful, and its sides have the brackets with these masks: two on the small side, two on the
/// big one.
fn are_sides(chi: &Chirotope, st: Statement, masks: [u32; 4]) -> bool {
    if !lawful(chi, st) {
        return false;
    }
    brackets_of_lawful_statements();
    let (first, second, third, fourth) = sides(st, chi.elements());
    [first.mask(), second.mask(), third.mask(), fourth.mask()] == masks
}

/// Whether there is a chirotope, the statements on it with the numbers from 0 on are these, and no other is lawful.
fn has_all(chi: Result<Chirotope, SampleError>, list: &[[u8; 7]]) -> bool {
    match chi {
        Ok(chi) => are_all(&chi, list),
        Err(_) => false,
    }
}

/// Whether there is a chirotope, and the statement with a number is this one and the last.
fn has_last(chi: Result<Chirotope, SampleError>, k: u32, numbers: [u8; 7]) -> bool {
    match chi {
        Ok(chi) => is_at(&chi, k, numbers) & nth_statement(&chi, k.saturating_add(1)).is_none(),
        Err(_) => false,
    }
}

/// Whether there is a chirotope, and these are the sides of a statement on it.
fn has_sides(chi: Result<Chirotope, SampleError>, st: Statement, masks: [u32; 4]) -> bool {
    match chi {
        Ok(chi) => are_sides(&chi, st, masks),
        Err(_) => false,
    }
}

#[test]
fn statements(rt: HostRuntime) {
    let alloc = rt.alloc();
    let five = "++++++++++";
    let equation = statement([1, 2, 3, 4, 7, 3, 2], false);
    hold(
        &rt,
        &[
            // in a rank other than 3 there are none
            (
                "all of five elements",
                has_all(chirotope_of(&rt, alloc, 3, 5, five), &TEN),
            ),
            (
                "none of rank 2",
                has_all(chirotope_of(&rt, alloc, 2, 5, five), &[]),
            ),
            // each of 6 elements has two with each four of the other five; the last are those of 6 with 2, 3, 4 and 5
            (
                "the last of six elements",
                has_last(
                    chirotope_of(&rt, alloc, 3, 6, "++++++++++++++++++++"),
                    59,
                    [6, 2, 3, 4, 5, 3, 2],
                ),
            ),
            // since 123 is collinear, 127 with 134 is equal to 124 with 137
            (
                "sides of an equation",
                has_sides(
                    chirotope_of(&rt, alloc, 3, 9, PAPPUS),
                    equation,
                    [0b1000011, 0b1101, 0b1011, 0b1000101],
                ),
            ),
        ],
    );
}
