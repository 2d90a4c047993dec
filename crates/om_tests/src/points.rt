//! The search for vectors in a box of 1, on chirotopes whose signs are all plus.

ghost use Rattle.std.specs.Prelude.{◌≡◌, ◌≤◌, IfOk};

use super::helpers::hold;
use super::maps::word_of;
use om_chirotope::Chirotope;
use om_points::search;
use om_samples::{SampleError, chirotope_of};
use om_vectors::{Unfound, Word};

/// Whether there is a chirotope, and the search in this many steps finds this.
fn finds(chi: Result<Chirotope, SampleError>, steps: u64, expected: Result<Word, Unfound>) -> bool
    requires rank { IfOk chi (λ c. c.rank ≡ 3) }
    requires steps { 1 ≤ steps }
{
    match chi {
        Ok(chi) => search(&chi, 1, steps) == expected,
        Err(_) => false,
    }
}

// A basis alone is found at the first step. With a fourth vector the twentieth list is the first that has all
// signs, and one step earlier the fourth vector is (1, -1, 0). Five such vectors need a greater coordinate, and in
// the last list that is visited (1, 1, 0) comes after the basis.
#[test]
fn found_and_not(rt: HostRuntime) {
    let alloc = rt.alloc();
    let three = word_of(&[[1, 0, 0], [0, 1, 0], [0, 0, 1]]);
    let four = word_of(&[[1, 0, 0], [0, 1, 0], [0, 0, 1], [1, -1, 1]]);
    let before = Unfound::Frontier(word_of(&[[1, -1, 0]]));
    let last = Unfound::Frontier(word_of(&[[1, 1, 0]]));
    let five = "++++++++++";
    hold(
        &rt,
        &[
            (
                "a basis",
                finds(chirotope_of(&rt, alloc, 3, 3, "+"), 1, Ok(three)),
            ),
            (
                "four, at step 20",
                finds(chirotope_of(&rt, alloc, 3, 4, "++++"), 20, Ok(four)),
            ),
            (
                "four, a step too few",
                finds(chirotope_of(&rt, alloc, 3, 4, "++++"), 19, Err(before)),
            ),
            (
                "five, exhausted",
                finds(
                    chirotope_of(&rt, alloc, 3, 5, five),
                    52,
                    Err(Unfound::Exhausted),
                ),
            ),
            (
                "five, a step too few",
                finds(chirotope_of(&rt, alloc, 3, 5, five), 51, Err(last)),
            ),
        ],
    );
}
