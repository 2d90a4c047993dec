//! What fits a colouring of the elements of an oriented matroid.

ghost use Rattle.std.specs.Prelude.{◌≡◌, ◌≤◌, ◌↔◌, IfOk, IsTrue, MatchOption, length};
ghost use Rattle.om_laws.specs.Colours.{IsColoured};
ghost use Rattle.om_paint.specs.Paintings.{colouring};
ghost use Rattle.om_document.specs.declared.document.Document.{Document};
ghost use Rattle.om_reply.specs.Answers.{says};
ghost use Rattle.om_commands.specs.Paintings.{IsPainting, IsPaintingOfMap, painted_line};
ghost use Rattle.om_commands.specs.Paintable.{IsPaintable};
ghost use Rattle.om_representation.specs.Represented.{IsMeantFor};
ghost use Rattle.om_words.specs.Tasks.{HasElement};

use om_chirotope::Chirotope;
use om_paint::{Colour, Painted, paint};
use om_printing::Line;
use om_reply::Answer;
use om_representation::{Representation, choose_chirotope, width_line};
use om_signs::{MAX_ELEMENTS, NoMemory};
use om_words::Colouring;
use std::alloc::Global;

/// The circuit or the cocircuit of the chirotope of an oriented matroid that fits a colouring at an element.
/// Elements count from 1.
pub fn find_painting(
    alloc: Global,
    representation: Representation,
    given: Colouring,
) -> Result<Answer, NoMemory>
    requires { HasElement given }
    ensures { IfOk result (IsMeantFor (IsPainting given) representation) }
{
    if let Some(why) = painting_refusal(representation.elements(), &given) {
        return Ok(Answer::Line(why));
    }
    match choose_chirotope(alloc, representation) {
        Ok(chirotope) => Ok(Answer::Line(find_painting_of(&chirotope, &given))),
        Err(why) => Ok(Answer::Line(width_line(why)?)),
    }
}

/// The line that refuses a colouring of the elements 1 to n, if it is refused.
fn painting_refusal(n: u8, given: &Colouring) -> Option<Line>
    requires high { n ≤ MAX_ELEMENTS }
    requires element { HasElement given.now }
    ensures { MatchOption result (IsPaintable given.now n)
        (λ why. (d : Document) → d.elements ≡ n → IsPainting given.now d (says why)) }
{
    if given.count != n {
        return Some(Line::RefusedLength {
            given: u32::from(given.count),
        });
    }
    if n < given.e {
        return Some(Line::RefusedPlace { e: given.e });
    }
    if !is_coloured(&given.colours[..given.count as usize], given.e) {
        return Some(Line::RefusedColour { e: given.e });
    }
    None
}

/// The line that names what fits a colouring in a chirotope.
fn find_painting_of(chirotope: &Chirotope, given: &Colouring) -> Line
    requires element { HasElement given.now }
    requires few { chirotope.now.elements ≤ MAX_ELEMENTS }
    requires lawful { IsPaintable given.now chirotope.now.elements }
    ensures { IsPaintingOfMap given.now chirotope.now (says result) }
{
    let colours = &given.colours[..given.count as usize];
    painted_line(paint(chirotope, colours, given.e))
}

/// Whether element e is red or green. The colours are those of the elements 1, 2, and so on.
fn is_coloured(colours: &[Colour], e: u8) -> bool
    requires low { 1 ≤ e }
    requires high { e ≤ length colours.now }
    ensures { IsTrue result ↔ IsColoured (colouring colours.now e) }
{
    match colours[e as usize - 1] {
        Colour::Red | Colour::Green => true,
        Colour::Black | Colour::White => false,
    }
}

/// The line that names the circuit or the cocircuit that fits.
fn painted_line(painted: Painted) -> Line
    ensures { result ≡ painted_line painted }
{
    match painted {
        Painted::Circuit(x) => Line::Circuit { x },
        Painted::Cocircuit(x) => Line::Cocircuit { x },
    }
}
