//! The least bad numbers and the results of parts, and calls that are made at the same time.

ghost use Rattle.std.specs.Prelude.{◌≡◌, ◌⊎◌, ◌/◌};

use super::helpers::hold;
use om_parallel::{Part, Probe, first_bad, first_bad_by_cost, map_parts, map_parts_by_cost};
use om_signs::NoMemory;
use std::alloc::Global;
use std::sync::atomic::{AtomicBool, Ordering};
use std::thread::Threads;

/// Numbers of which 5 and 900 are bad.
#[derive(Drop)]
struct FiveAndNineHundred;

impl Probe for FiveAndNineHundred {
    ghost is_bad = { λ _ k. (k ≡ 5) ⊎ (k ≡ 900) };

    fn bad(&self, k: u64) -> bool {
        k == 5 || k == 900
    }
}

/// Numbers of which 900 is bad.
#[derive(Drop)]
struct NineHundred;

impl Probe for NineHundred {
    ghost is_bad = { λ _ k. k ≡ 900 };

    fn bad(&self, k: u64) -> bool {
        k == 900
    }
}

/// How often the call for 0 looks for the call for 1, if it must come.
const MOST_TURNS: u64 = 2_000_000_000;

/// How often it looks, if the call for 1 can't come before it has ended.
const FEW_TURNS: u64 = 50_000_000;

/// Two calls that are made at the same time: the one for 0 waits for the one for 1.
#[derive(Drop)]
struct Held {
    come: AtomicBool,
    late: AtomicBool,
    turns: u64,
}

impl Held {
    /// No call has come, and the one for 0 looks this often for the one for 1.
    fn new(turns: u64) -> Held {
        Held {
            come: AtomicBool::new(false),
            late: AtomicBool::new(false),
            turns,
        }
    }

    /// The call for a number.
    fn meet(&self, k: u64) {
        if k == 1 {
            self.come.store(true, Ordering::SeqCst);
            return;
        }
        for _ in 0..self.turns {
            if self.come.load(Ordering::SeqCst) {
                return;
            }
        }
        self.late.store(true, Ordering::SeqCst);
    }
}

impl Probe for Held {
    ghost is_bad = { λ _ _. ⊥ };

    fn bad(&self, k: u64) -> bool {
        self.meet(k);
        false
    }
}

impl Part for Held {
    type Out = u64;

    ghost gives = { λ _ k x. x ≡ k };

    fn part(&self, k: u64) -> u64 {
        self.meet(k);
        k
    }
}

/// The half of each number, rounded down.
#[derive(Drop)]
struct Halves;

impl Part for Halves {
    type Out = u64;

    ghost gives = { λ _ k x. x ≡ k / 2 };

    fn part(&self, k: u64) -> u64 {
        k / 2
    }
}

/// Whether the results were found, and are these.
fn are_answers(found: Result<Vec<u64>, NoMemory>, expected: &[u64]) -> bool {
    match found {
        Ok(answers) => answers.as_slice() == expected,
        Err(_) => false,
    }
}

#[test]
fn least_bad_number(rt: HostRuntime) {
    let found = [
        first_bad(&rt, &FiveAndNineHundred, 1000),
        first_bad(&rt, &FiveAndNineHundred, 5),
        first_bad(&rt, &FiveAndNineHundred, 0),
        first_bad(&rt, &FiveAndNineHundred, 1_000_000),
    ];
    assert!(rt; found == [Some(5), None, None, Some(5)]);
}

#[test]
fn calls_meet(rt: HostRuntime) {
    let (probes, parts) = (Held::new(MOST_TURNS), Held::new(MOST_TURNS));
    let found = [
        first_bad(&rt, &probes, 2).is_none(),
        probes.late.load(Ordering::SeqCst),
        are_answers(map_parts(&rt, rt.alloc(), &parts, 2), &[0, 1]),
        parts.late.load(Ordering::SeqCst),
    ];
    assert!(rt; found == [true, false, true, false]);
}

/// Whether two calls at this cost give what they must, and whether the one for 0 ends before the one for 1 comes: of
/// probes, and of parts.
fn is_late<R: Threads + Sync>(rt: &R, alloc: Global, turns: u64, cost: u64, late: bool) -> bool {
    let (probes, parts) = (Held::new(turns), Held::new(turns));
    let found = [
        first_bad_by_cost(rt, &probes, 2, cost).is_none(),
        probes.late.load(Ordering::SeqCst),
        are_answers(map_parts_by_cost(rt, alloc, &parts, 2, cost), &[0, 1]),
        parts.late.load(Ordering::SeqCst),
    ];
    found == [true, late, true, late]
}

// Numbers that cost little are handled by the calling thread alone, so the call for 0 ends before that for 1. Numbers
// that cost much are handled by several threads from the start.
#[test]
fn little_work_starts_no_thread_and_much_is_shared(rt: HostRuntime) {
    let alloc = rt.alloc();
    hold(
        &rt,
        &[
            ("little work", is_late(&rt, alloc, FEW_TURNS, 10, true)),
            (
                "much work",
                is_late(&rt, alloc, MOST_TURNS, u64::MAX, false),
            ),
        ],
    );
}

// The least bad number is the same whatever the numbers cost.
#[test]
fn least_bad_number_at_any_cost(rt: HostRuntime) {
    for cost in [0, 1, 1_000, 100_000, u64::MAX] {
        let found = [
            first_bad_by_cost(&rt, &FiveAndNineHundred, 1000, cost),
            first_bad_by_cost(&rt, &FiveAndNineHundred, 5, cost),
            first_bad_by_cost(&rt, &NineHundred, 1000, cost),
        ];
        assert!(rt; found == [Some(5), None, Some(900)]);
    }
}

/// Whether 20,000 results were found, and the first and the last are these.
fn are_many(found: Result<Vec<u64>, NoMemory>, first: u64, last: u64) -> bool {
    match found {
        Ok(many) => {
            let ends = (many.first().copied(), many.last().copied());
            (many.len(), ends) == (20_000, (Some(first), Some(last)))
        }
        Err(_) => false,
    }
}

#[test]
fn parts_in_order(rt: HostRuntime) {
    let alloc = rt.alloc();
    hold(
        &rt,
        &[
            (
                "five parts",
                are_answers(map_parts(&rt, alloc, &Halves, 5), &[0, 0, 1, 1, 2]),
            ),
            (
                "no parts",
                are_answers(map_parts(&rt, alloc, &Halves, 0), &[]),
            ),
            (
                "20,000 parts",
                are_many(map_parts(&rt, alloc, &Halves, 20_000), 0, 9_999),
            ),
        ],
    );
}

// The results are the same whatever they cost.
#[test]
fn parts_at_any_cost(rt: HostRuntime) {
    for cost in [0, 1, 1_000, u64::MAX] {
        let found = map_parts_by_cost(&rt, rt.alloc(), &Halves, 20_000, cost);
        assert!(rt; are_many(found, 0, 9_999));
    }
}
