//! The flip of a triple of elements of a chirotope.

ghost use Rattle.std.specs.Prelude.{◌≡◌, ◌≤◌, IfOk};
ghost use Rattle.om_plane.specs.Flips.{IsFlip, IsFlipOfMap, flip_refusal, triple_of};
ghost use Rattle.om_reply.specs.Above.{first_above};
ghost use Rattle.om_representation.specs.Represented.{IsMeantFor};
ghost use Rattle.om_words.specs.Tasks.{AreIncreasing};

use om_chirotope::Chirotope;
use om_mutate::{FlipRefused, flip};
use om_printing::Line;
use om_reply::Answer;
use om_representation::{Representation, choose_chirotope, map_document, rank_line};
use om_signs::NoMemory;
use om_subsets::Subset;
use std::alloc::Global;

/// The chirotope of an oriented matroid with the sign of the triple a < b < c negated, or the line of the first
/// refusal.
// never inlined, so that the tables of its callees aren't on the stack while other commands run
#[inline(never)]
pub fn flip_triple(
    alloc: Global,
    representation: Representation,
    a: u8,
    b: u8,
    c: u8,
) -> Result<Answer, NoMemory>
    requires { AreIncreasing a b c }
    ensures { IfOk result (IsMeantFor (IsFlip a b c) representation) }
{
    if let Some(e) = place_above(representation.elements(), a, b, c) {
        return Ok(Answer::Line(Line::RefusedPlace { e }));
    }
    match choose_chirotope(alloc, representation) {
        Ok(chirotope) => Ok(flip_triple_of(alloc, chirotope, a, b, c)),
        Err(why) => Ok(Answer::Line(rank_line(why)?)),
    }
}

/// The chirotope with the sign of the triple a < b < c negated, or the line of the first refusal.
fn flip_triple_of(alloc: Global, chirotope: Chirotope, a: u8, b: u8, c: u8) -> Answer
    requires increasing { AreIncreasing a b c }
    requires inside { c ≤ chirotope.elements }
    ensures { IsFlipOfMap (triple_of a b c) chirotope result }
{
    let n = chirotope.elements();
    match flip(chirotope, Subset::triple(a, b, c, n)) {
        Ok(turned) => Answer::Document(map_document(alloc, turned)),
        Err(bad) => Answer::Line(flip_refusal(bad.why)),
    }
}

/// The first of a, b and c that is greater than n.
fn place_above(n: u8, a: u8, b: u8, c: u8) -> Option<u8>
    ensures { result ≡ first_above n (triple_of a b c) }
{
    if n < a {
        Some(a)
    } else if n < b {
        Some(b)
    } else if n < c {
        Some(c)
    } else {
        None
    }
}

/// The line that says why a triple can't be flipped.
fn flip_refusal(why: FlipRefused) -> Line
    ensures { result ≡ flip_refusal why }
{
    match why {
        FlipRefused::NotRank3 { r } => Line::RefusedNotrank3 { r },
        FlipRefused::NotBasis => Line::RefusedNotbasis,
        FlipRefused::NotMutation { s, a } => Line::RefusedNotmutation { s, a },
    }
}
