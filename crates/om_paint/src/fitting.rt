//! The sign vectors that fit a colouring, given by masks.

ghost use Rattle.std.specs.Prelude.{ℕ, ◌≡◌, ◌<◌, ◌≤◌, ◌↔◌, List, IsTrue, Some, IfSome, get_or, length};
ghost use Rattle.om_signs.specs.declared.sign.Sign.{Sign as Signs};
ghost use Rattle.om_signs.specs.SignVec.{IsMaskOf};
ghost use Rattle.om_laws.specs.Colours.{CircuitMay, CocircuitMay};
ghost use Rattle.om_paint.specs.Paintings.{shade, FitsCircuit, FitsCocircuit};
ghost use Rattle.om_paint.specs.Classes.{IsAllowed};

use super::classes::{CLASSES, Classes};
use om_oriented::Colour;
use om_signs::{MAX_ELEMENTS, Sign, SignVec};

/// The vectors of a length that aren't zero at e, are plus only at elements of one mask, and minus only at elements
/// of another. They are the class 0, and there is no other.
#[derive(Drop)]
pub struct Fitting {
    elements: u8,
    may_be_plus: u32,
    may_be_minus: u32,
    e: u8,
}

impl Classes for Fitting {
    ghost use Rattle.std.specs.Prelude.{◌≡◌, ◌≤◌};
    ghost use Rattle.om_paint.specs.Classes.{IsAllowed};

    ghost elements = { λ a. a.elements };

    ghost holds = { λ a i X. (i ≡ 0) × IsAllowed a.may_be_plus a.may_be_minus a.e X };

    ghost valid = { λ a. (1 ≤ a.e) × (a.e ≤ a.elements) };

    fn class_of(&self, x: SignVec) -> Option<usize> {
        if self.allows(x) { Some(0) } else { None }
    }
}

impl Fitting {
    /// The vectors that aren't zero at e and whose signs a colouring allows in a circuit.
    pub fn of_circuits(colours: &[Colour], elements: u8, e: u8) -> Fitting
        requires size { length colours.now ≡ elements }
        requires few { elements ≤ MAX_ELEMENTS }
        ensures elements { result.elements ≡ length colours.now }
        ensures place { result.e ≡ e }
        ensures allowed { (X : List Signs) → length X ≡ length colours.now
            → IsAllowed result.may_be_plus result.may_be_minus result.e X ↔ FitsCircuit colours.now e X }
    {
        Fitting {
            elements,
            may_be_plus: open_to_circuits(colours, Sign::Plus),
            may_be_minus: open_to_circuits(colours, Sign::Minus),
            e,
        }
    }

    /// The vectors that aren't zero at e and whose signs a colouring allows in a cocircuit.
    pub fn of_cocircuits(colours: &[Colour], elements: u8, e: u8) -> Fitting
        requires size { length colours.now ≡ elements }
        requires few { elements ≤ MAX_ELEMENTS }
        ensures elements { result.elements ≡ length colours.now }
        ensures place { result.e ≡ e }
        ensures allowed { (X : List Signs) → length X ≡ length colours.now
            → IsAllowed result.may_be_plus result.may_be_minus result.e X ↔ FitsCocircuit colours.now e X }
    {
        Fitting {
            elements,
            may_be_plus: open_to_cocircuits(colours, Sign::Plus),
            may_be_minus: open_to_cocircuits(colours, Sign::Minus),
            e,
        }
    }

    /// Whether the vector is one of these.
    fn allows(&self, x: SignVec) -> bool
        requires low { 1 ≤ self.now.e }
        requires high { self.now.e ≤ length x }
        ensures { IsTrue result ↔ IsAllowed self.now.may_be_plus self.now.may_be_minus self.now.e x }
    {
        if x.plus() & !self.may_be_plus != 0 {
            return false;
        }
        if x.minus() & !self.may_be_minus != 0 {
            return false;
        }
        x.get(self.e) != Sign::Zero
    }
}

/// The elements at which a colouring allows a sign in a circuit, as a mask.
fn open_to_circuits(colours: &[Colour], sign: Sign) -> u32
    requires few { length colours.now ≤ MAX_ELEMENTS }
    ensures { IsMaskOf (length colours.now) (λ i. CircuitMay (shade (get_or colours.now i Colour.Black)) sign) result }
{
    let mut mask = 0u32;
    for (i, colour) in colours.iter().enumerate() {
        if circuit_may(*colour, sign) {
            mask |= 1u32 << i;
        }
    }
    mask
}

/// The elements at which a colouring allows a sign in a cocircuit, as a mask.
fn open_to_cocircuits(colours: &[Colour], sign: Sign) -> u32
    requires few { length colours.now ≤ MAX_ELEMENTS }
    ensures { IsMaskOf (length colours.now) (λ i. CocircuitMay (shade (get_or colours.now i Colour.Black)) sign)
        result }
{
    let mut mask = 0u32;
    for (i, colour) in colours.iter().enumerate() {
        if cocircuit_may(*colour, sign) {
            mask |= 1u32 << i;
        }
    }
    mask
}

/// Whether a colour allows a sign in a circuit.
fn circuit_may(colour: Colour, sign: Sign) -> bool
    ensures { IsTrue result ↔ CircuitMay (shade colour) sign }
{
    match colour {
        Colour::Red => sign != Sign::Minus,
        Colour::Green => sign != Sign::Plus,
        Colour::Black => true,
        Colour::White => sign == Sign::Zero,
    }
}

/// Whether a colour allows a sign in a cocircuit.
fn cocircuit_may(colour: Colour, sign: Sign) -> bool
    ensures { IsTrue result ↔ CocircuitMay (shade colour) sign }
{
    match colour {
        Colour::Red => sign != Sign::Minus,
        Colour::Green => sign != Sign::Plus,
        Colour::Black => sign == Sign::Zero,
        Colour::White => true,
    }
}
