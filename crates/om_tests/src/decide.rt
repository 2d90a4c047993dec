//! Verdicts of each kind, in a box of 1.

ghost use Rattle.om_budgets.specs.Ranges.{AreBudgets};
ghost use Rattle.std.specs.Prelude.{◌≡◌};

use super::helpers::hold;
use super::maps::PAPPUS;
use om_certificate::{LpEnd, Verdict};
use om_chirotope::Chirotope;
use om_decide::{Budgets, DecideError, decide};
use om_samples::{SampleError, chirotope_of};
use std::alloc::Global;

/// The signs of nine points in which all triples but 789 are collinear as in the theorem of Pappus.
const NON_PAPPUS: &str =
    "0++++++++++++--------0-0++++++++++----0---+0+++++---0+-0++++++++0------------------+";

/// A summary of a verdict: its kind, counted from 1, and the number of its vectors, entries, weights or rows; or 0
/// and the rank, if it isn't 3.
fn in_short(decided: &Result<Verdict, DecideError>) -> Option<(u8, usize)> {
    match decided {
        Ok(Verdict::Realizable(word)) => Some((1, word.len() as usize)),
        Ok(Verdict::Nonrealizable(entries)) => Some((2, entries.len())),
        Ok(Verdict::Undecided(weights, _)) => Some((3, weights.len())),
        Ok(Verdict::Limit(LpEnd::Pivots { basis, .. }, _)) => Some((4, basis.len())),
        Ok(Verdict::Limit(LpEnd::Width { .. }, _)) => Some((5, 0)),
        Err(DecideError::NotRank3 { r }) => Some((0, *r as usize)),
        Err(DecideError::Memory) => None,
    }
}

/// Whether there is a chirotope, and the verdict on it has this summary.
fn is_decided(
    alloc: Global,
    chi: Result<Chirotope, SampleError>,
    budgets: Budgets,
    expected: (u8, usize),
) -> bool
    requires { AreBudgets budgets }
{
    match chi {
        Ok(chi) => is_verdict(decide(alloc, &chi, budgets), expected),
        Err(_) => false,
    }
}

/// Whether a verdict has this summary.
fn is_verdict(decided: Result<Verdict, DecideError>, expected: (u8, usize)) -> bool {
    in_short(&decided) == Some(expected)
}

/// Some steps and pivots, in a box of 1.
fn budgets(steps: u64, pivots: u32) -> Budgets
    ensures { result ≡ record { box_size = 1; steps = steps; pivots = pivots } }
{
    Budgets {
        box_size: 1,
        steps,
        pivots,
    }
}

// The vectors are found at the twentieth step; on five elements the search is exhausted at step 52, and there is a
// weight for each of ten brackets. Of nine points, nine of 84 triples are collinear, then eight; the program ends at
// pivot 136, and has a row for each of the 76 brackets and one more.
#[test]
fn verdicts(rt: HostRuntime) {
    let alloc = rt.alloc();
    let (rank_2, four) = ("+++", "++++");
    let five = "++++++++++";
    let most = 1_000_000;
    hold(
        &rt,
        &[
            (
                "rank 2",
                is_decided(
                    alloc,
                    chirotope_of(&rt, alloc, 2, 3, rank_2),
                    budgets(1, 1),
                    (0, 2),
                ),
            ),
            (
                "four elements, found at the last step",
                is_decided(
                    alloc,
                    chirotope_of(&rt, alloc, 3, 4, four),
                    budgets(20, most),
                    (1, 4),
                ),
            ),
            (
                "five elements, exhausted",
                is_decided(
                    alloc,
                    chirotope_of(&rt, alloc, 3, 5, five),
                    budgets(52, most),
                    (3, 10),
                ),
            ),
            (
                "Pappus, weights",
                is_decided(
                    alloc,
                    chirotope_of(&rt, alloc, 3, 9, PAPPUS),
                    budgets(1, most),
                    (3, 75),
                ),
            ),
            (
                "non-Pappus, a certificate",
                is_decided(
                    alloc,
                    chirotope_of(&rt, alloc, 3, 9, NON_PAPPUS),
                    budgets(100_000, 136),
                    (2, 22),
                ),
            ),
            (
                "non-Pappus, a pivot too few",
                is_decided(
                    alloc,
                    chirotope_of(&rt, alloc, 3, 9, NON_PAPPUS),
                    budgets(1, 135),
                    (4, 77),
                ),
            ),
        ],
    );
}
