//! The order of the elements along one of them.

ghost use Rattle.std.specs.Prelude.{◌≤◌, ◌≡◌};
ghost use Rattle.om_label.specs.Elements.{IsOnTable};

use super::labelling::{Labelling, negative};
use super::signs::Signs;
use om_signs::{MAX_ELEMENTS, Sign};
use om_symmetry::SignedElement;

/// Three signed elements of a simple chirotope of rank 3 that are a basis with the value plus: an element, one that
/// crosses it first, and one that crosses it elsewhere. They fix the signs of the other elements and their order along
/// the element.
#[derive(Clone, Copy)]
struct Frame {
    element: SignedElement,
    first: SignedElement,
    later: SignedElement,
    ghost element_within: { IsOnTable element },
    ghost first_within: { IsOnTable first },
    ghost later_within: { IsOnTable later },
}

impl Frame {
    /// The frame of the first element of a labelling, and of the second one.
    fn of(signs: &Signs, labelling: &Labelling) -> Frame {
        Frame {
            element: labelling.at(1),
            first: labelling.at(2),
            later: later_of(signs, labelling),
        }
    }

    /// The element or its negative, so that it comes behind the first one along the element, or, if it crosses the
    /// element where the first one does, before the later one.
    fn oriented(&self, signs: &Signs, a: SignedElement) -> SignedElement
        requires { IsOnTable a }
        ensures { result.element ≡ a.element }
    {
        let behind = match signs.value(self.element, self.first, a) {
            Sign::Zero => signs.value(self.element, a, self.later),
            sign => sign,
        };
        if behind == Sign::Minus {
            negative(a)
        } else {
            a
        }
    }

    /// Whether a comes before b, which are both oriented. Those that cross the element at one point are ordered by how
    /// they go on to another element, which crosses it elsewhere.
    fn comes_before(&self, signs: &Signs, a: SignedElement, b: SignedElement) -> bool
        requires a { IsOnTable a }
        requires b { IsOnTable b }
    {
        match signs.value(self.element, a, b) {
            Sign::Minus => false,
            Sign::Plus => true,
            Sign::Zero => {
                if signs.value(self.element, self.first, a) == Sign::Zero {
                    signs.value(a, b, self.later) == Sign::Plus
                } else {
                    signs.value(b, a, self.first) == Sign::Plus
                }
            }
        }
    }
}

/// The next signed element of a labelling that crosses the first one at another point than the second one does, negated
/// if its value with these two is minus. Without one, which no simple chirotope lacks, the second one stands for it.
fn later_of(signs: &Signs, labelling: &Labelling) -> SignedElement
    ensures { IsOnTable result }
{
    let (element, first) = (labelling.at(1), labelling.at(2));
    for place in 3..signs.elements() + 1 {
        let a = labelling.at(place);
        match signs.value(element, first, a) {
            Sign::Minus => return negative(a),
            Sign::Zero => {}
            Sign::Plus => return a,
        }
    }
    first
}

/// The labelling that begins with an element, and has the others behind it in the order in which they cross it, from
/// the crossing with the least other element on. Each value of the element and two others, in their order, is plus, or
/// 0 if these cross it at one point.
pub fn along(signs: &Signs, element: u8) -> Labelling
    requires { element ≤ signs.now.elements }
{
    let n = signs.elements();
    let mut labelling = Labelling::beginning_with(element, n);
    let frame = Frame::of(signs, &labelling);
    for place in 3..n + 1 {
        labelling.set(place, frame.oriented(signs, labelling.at(place)));
        for earlier in 2..place {
            if frame.comes_before(signs, labelling.at(place), labelling.at(earlier)) {
                labelling.exchange(earlier, place);
            }
        }
    }
    labelling
}

/// Whether the signed element at a place of a labelling along an element crosses it at another point than the one
/// before. The second one does.
pub fn begins_crossing(signs: &Signs, labelling: &Labelling, place: u8) -> bool
    requires low { 2 ≤ place }
    requires high { place ≤ MAX_ELEMENTS }
{
    place == 2
        || signs.value(
            labelling.at(1),
            labelling.at(place - 1),
            labelling.at(place),
        ) != Sign::Zero
}

/// The labelling from the second crossing on.
pub fn from_next_crossing(signs: &Signs, labelling: &Labelling) -> Labelling {
    let n = signs.elements();
    let mut size = 0;
    for place in 2..n + 1 {
        if signs.value(labelling.at(1), labelling.at(2), labelling.at(place)) == Sign::Zero {
            size += 1;
        }
    }
    labelling.rotated(size, n)
}
