//! Skips candidates that don't have the required signs, many at a time.

ghost use Rattle.std.specs.Prelude.{ℕ, ◌≡◌, ◌≤◌, ◌<◌, ◌-◌, length, IfSome};
ghost use Rattle.std.proofs.Math.ListN.{get_or};
ghost use Rattle.om_vectors.specs.WholeVectors.{WholeVector, zero_vector};
ghost use Rattle.om_points.specs.Candidates.{IsCandidate};
ghost use Rattle.om_points.specs.Forms.{Refuses};
ghost use Rattle.om_points.specs.Passes.{Disagrees, IsPassed};

use super::form::Form;
use super::order::SIGNS;
use super::placing::Placing;
use super::refusers::Refusers;
use super::short_vector::ShortVector;
use om_signs::{MAX_BOX, Sign};

/// A candidate, and how many places it comes after another one.
#[derive(Clone, Copy)]
pub(crate) struct Passed {
    pub vector: ShortVector,
    pub steps: u64,
}

/// A candidate at the last vector or at most `limit` places after it. The candidates from that vector up to this
/// one, excluded, don't have the required signs with the vectors before.
pub(crate) fn pass(placing: &Placing, wanted: &[Sign], box_size: u16, limit: u64) -> Passed
    requires some { 1 ≤ length placing.now }
    requires wanted { length wanted.now ≡ SIGNS }
    requires box_size { box_size ≤ MAX_BOX }
    requires candidate { IsCandidate box_size (get_or placing.now (length placing.now - 1) zero_vector) }
    ensures few { result.steps ≤ limit }
    ensures passed { IsPassed box_size (Disagrees placing.now wanted.now (length placing.now - 1))
        (get_or placing.now (length placing.now - 1) zero_vector) result.steps result.vector }
{
    let mut vector = placing.at(placing.len() - 1);
    let mut steps = 0u64;
    let mut refusers = Refusers::of(placing, wanted);
    while steps < limit {
        let Some(form) = refusers.refusing(placing, wanted, vector) else {
            break;
        };
        match leap(form, vector, box_size, limit - steps) {
            None => break,
            Some(passed) => {
                vector = passed.vector;
                steps += passed.steps;
            }
        }
    }
    Passed { vector, steps }
}

/// A later candidate, at most `limit` places after a vector. The form refuses the candidates from the vector up to
/// this one, excluded. None only if there is no later candidate.
fn leap(form: Form, vector: ShortVector, box_size: u16, limit: u64) -> Option<Passed>
    requires box_size { box_size ≤ MAX_BOX }
    requires candidate { IsCandidate box_size vector }
    requires refused { Refuses form vector }
    requires limit { 1 ≤ limit }
    ensures some { IfSome result (λ t. 1 ≤ t.steps) }
    ensures few { IfSome result (λ t. t.steps ≤ limit) }
    ensures passed { IfSome result (λ t. IsPassed box_size (Refuses form) vector t.steps t.vector) }
{
    let run = run(form, vector);
    if run.steps < limit {
        if let Some(next) = run.vector.next(box_size) {
            return Some(Passed {
                vector: next,
                steps: run.steps + 1,
            });
        }
        if run.steps == 0 {
            return None;
        }
        return Some(run);
    }
    let next = vector.next(box_size)?;
    Some(Passed {
        vector: next,
        steps: 1,
    })
}

/// The last of consecutive candidates that the form refuses.
fn run(form: Form, vector: ShortVector) -> Passed
    requires { Refuses form vector }
    ensures refused { Refuses form result.vector }
    ensures passed { (box : ℕ) → IsCandidate box vector
        → IsPassed box (Refuses form) vector result.steps result.vector }
{
    if vector.is_lowest() {
        let rows = form.rows_to_try(vector);
        if form.refuses_rows(vector, rows) {
            return Passed {
                vector: vector.row_end(rows),
                steps: vector.steps_to_row_end(rows),
            };
        }
    }
    if form.refuses_upwards() {
        let steps = vector.room_above();
        return Passed {
            vector: vector.above(steps),
            steps: steps as u64,
        };
    }
    Passed { vector, steps: 0 }
}
