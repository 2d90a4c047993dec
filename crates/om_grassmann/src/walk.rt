//! The walk over the lawful statements in order.

ghost use Rattle.std.specs.Prelude.{◌≡◌, ◌+◌, ◌*◌, ◌<◌, ◌≤◌, ◌↔◌, IsNone, IfNone, IfSome};
ghost use Rattle.om_chirotope.specs.Map.{SignMap};
ghost use Rattle.om_grassmann.specs.Statements.{IsLawful};
ghost use Rattle.om_grassmann.specs.Order.{IsNext, IsLast};
ghost use Rattle.om_grassmann.specs.Walk.{IsFrame, frame_place, HasNoneBetween, HasNoneFrom, IsFirstFrom, AreTermsOn};
ghost use Rattle.om_grassmann.specs.Walk.{IsKind, statement_of};

use super::frame::Frame;
use super::lawfulness::{are_two, have_signs, is_placed};
use super::statement::Statement;
use super::terms::Terms;
use om_chirotope::Chirotope;
use om_signs::{MAX_ELEMENTS, Sign};

/// The number of pairs of the numbers 1, 2 and 3.
const DIRECTIONS: u8 = 9;

/// The lawful statement after a lawful statement, in the lexicographic order by a, b, c, d, e, `small` and `big`.
/// None exactly if this is the last one. The call allocates no memory. It looks up signs of later elements only:
/// those of the statement's own elements follow from the statement.
///
/// Source: Bokowski and Richter-Gebert, *On the finding of final polynomials*, 1990.
pub fn following(chi: &Chirotope, st: Statement) -> Option<Statement>
    requires { IsLawful chi.now st }
    ensures none { IsNone result ↔ IsLast chi.now st }
    ensures next { IfSome result (λ t. IsNext chi.now st t) }
{
    let n = chi.elements();
    let frame = Frame::of(st);
    if let Some(next) = first_in_frame(frame, Terms::told_by(st), 3 * (st.small - 1) + st.big) {
        return Some(next);
    }
    first_after(chi, n, frame)
}

/// The first lawful statement from a frame on, or None.
pub fn first_from(chi: &Chirotope, start: Frame) -> Option<Statement>
    requires rank { chi.now.rank ≡ 3 }
    requires frame { IsFrame chi.now.elements start }
    ensures limit { chi.now.elements ≤ MAX_ELEMENTS }
    ensures none { IfNone result (HasNoneFrom chi.now (frame_place start * 9)) }
    ensures first { IfSome result (λ t. IsFirstFrom chi.now (frame_place start * 9) t) }
{
    let n = chi.elements();
    if let Some(st) = first_of_frame(chi, start) {
        return Some(st);
    }
    first_after(chi, n, start)
}

/// The first lawful statement of the frames after a frame, or None. `n` is the number of elements.
fn first_after(chi: &Chirotope, n: u8, start: Frame) -> Option<Statement>
    requires rank { chi.now.rank ≡ 3 }
    requires n { n ≡ chi.now.elements }
    requires limit { n ≤ MAX_ELEMENTS }
    requires frame { IsFrame chi.now.elements start }
    ensures none { IfNone result (HasNoneFrom chi.now (frame_place start * 9 + 9)) }
    ensures first { IfSome result (λ t. IsFirstFrom chi.now (frame_place start * 9 + 9) t) }
{
    let mut frame = start;
    while let Some(next) = frame.next(n) {
        if let Some(st) = first_of_frame(chi, next) {
            return Some(st);
        }
        frame = next;
    }
    None
}

/// The first lawful statement of a frame, or None.
fn first_of_frame(chi: &Chirotope, frame: Frame) -> Option<Statement>
    requires rank { chi.now.rank ≡ 3 }
    requires frame { IsFrame chi.now.elements frame }
    ensures none { IfNone result (HasNoneBetween chi.now (frame_place frame * 9) (frame_place frame * 9 + 9)) }
    ensures first { IfSome result (λ t. IsFirstFrom chi.now (frame_place frame * 9) t) }
{
    let st = candidate(frame, 0, false);
    if !is_placed(st, chi.elements()) {
        return None;
    }
    first_in_frame(frame, Terms::of(chi, st), 0)
}

/// The first lawful statement of a frame from a direction on, found from the signs of the terms or from all three
/// negated.
fn first_in_frame(frame: Frame, terms: Terms, from: u8) -> Option<Statement>
    requires { from ≤ DIRECTIONS }
    ensures none { IfNone result ((m : SignMap) → AreTermsOn m frame terms
        → HasNoneBetween m (frame_place frame * 9 + from) (frame_place frame * 9 + 9)) }
    ensures first { IfSome result (λ t. (m : SignMap) → AreTermsOn m frame terms
        → IsFirstFrom m (frame_place frame * 9 + from) t) }
{
    for direction in from..DIRECTIONS {
        if let Some(strict) = kind_of(terms, direction / 3 + 1, direction % 3 + 1) {
            return Some(candidate(frame, direction, strict));
        }
    }
    None
}

/// Whether the statement with these two sides is lawful: Some says whether it is strict, and None that it isn't
/// lawful.
fn kind_of(terms: Terms, small: u8, big: u8) -> Option<bool>
    ensures { IsKind terms small big result }
{
    if !are_two(small, big) {
        return None;
    }
    let strict = terms.get(6 - (small + big)) != Sign::Zero;
    if have_signs(terms, small, big, strict) {
        Some(strict)
    } else {
        None
    }
}

/// The statement of a frame with this direction.
fn candidate(frame: Frame, direction: u8, strict: bool) -> Statement
    requires { direction < DIRECTIONS }
    ensures { result ≡ statement_of frame direction strict }
{
    Statement {
        a: frame.a,
        b: frame.b,
        c: frame.c,
        d: frame.d,
        e: frame.e,
        small: direction / 3 + 1,
        big: direction % 3 + 1,
        strict,
    }
}
