//! The text of each line.

ghost use Rattle.std.specs.Prelude.{◌<◌};

use super::made::is_made;
use om_grassmann::Statement;
use om_printing::pieces::{push, push_decimal, push_line_feed, push_subset, push_vector};
use om_printing::{Line, print_line};
use om_samples::vector_of;
use om_signs::NoMemory;
use om_subsets::Subset;
use om_text::Code;
use std::alloc::Global;

/// Whether lines have these texts.
fn are_texts(alloc: Global, lines: &[(Line, &str)]) -> bool {
    for (line, text) in lines.iter() {
        if !is_made(print_line(alloc, line), text.as_bytes()) {
            return false;
        }
    }
    true
}

/// The subset of 1 to 9 with this mask.
fn subset(mask: u32) -> Subset
    requires { mask < 512 }
{
    Subset::from_mask(mask, 9)
}

/// The strict statement that 1, 2, 3, 4 and 19 are the five elements, with the second term below the third.
const STATEMENT: Statement = Statement {
    a: 1,
    b: 2,
    c: 3,
    d: 4,
    e: 19,
    small: 2,
    big: 3,
    strict: true,
};

/// A line of words alone, and lines with numbers.
const LINES: [(Line, &str); 3] = [
    (Line::NotCovector, "not covector\n"),
    (
        Line::RefusedLine {
            line: 2,
            code: Code::Size { values: 19_448 },
        },
        "refused line 2 size 19448\n",
    ),
    (
        Line::RefusedWeightfails {
            statement: STATEMENT,
        },
        "refused weightfails 1 2 3 4 19 2 3\n",
    ),
];

/// Lines with sets or signs.
fn lines_with_sets() -> [(Line, &'static str); 5] {
    let (none, one_five, first_four) = (subset(0), subset(0b1_0001), subset(0b1111));
    [
        (
            Line::RefusedRelation {
                s: one_five,
                a: none,
            },
            "refused relation 1,5 none\n",
        ),
        (
            Line::RefusedThreeterm {
                p: none,
                q: first_four,
            },
            "refused threeterm none 1,2,3,4\n",
        ),
        (
            Line::RefusedNoexchange {
                b: one_five,
                c: first_four,
                e: 5,
            },
            "refused noexchange 1,5 1,2,3,4 5\n",
        ),
        (
            Line::RefusedUnbalanced {
                bracket: subset(0b1100_0001),
                small: 1,
                big: u128::MAX,
            },
            "refused unbalanced 1,7,8 1 340282366920938463463374607431768211455\n",
        ),
        (
            Line::Circuit {
                x: vector_of(4, "+-0-"),
            },
            "circuit +-0-\n",
        ),
    ]
}

#[test]
fn lines(rt: HostRuntime) {
    assert!(rt; are_texts(rt.alloc(), LINES.as_slice()));
    assert!(rt; are_texts(rt.alloc(), lines_with_sets().as_slice()));
}

/// Appends a number, a space, a set, the signs of a vector and the end of the line.
fn push_pieces(text: &mut Vec<u8>) -> Result<(), NoMemory> {
    push_decimal(text, 4)?;
    push(text, b" ")?;
    push_subset(text, subset(0b1101))?;
    push_vector(text, vector_of(5, "-0++-"))?;
    push_line_feed(text)
}

#[test]
fn pieces_of_a_text(rt: HostRuntime) {
    let mut text = Vec::new(rt.alloc());
    let pushed = push_pieces(&mut text);
    assert!(rt; is_made(pushed.and(Ok(text)), b"4 1,3,4-0++-\n"));
}
