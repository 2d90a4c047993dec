//! The sign vectors with at most one minus.

ghost use Rattle.std.specs.Prelude.{ℕ, ◌≡◌, ◌<◌, ◌↔◌, Some, IfSome, length};
ghost use Rattle.om_paint.specs.Classes.{HasMinusAloneAt};

use super::classes::{CLASSES, Classes};
use om_signs::SignVec;

/// The vectors of a length with at most one minus. The class 0 are those without a minus, and the class e are those
/// whose only minus is at e.
#[derive(Drop)]
pub struct Minuses {
    pub elements: u8,
}

impl Classes for Minuses {
    ghost use Rattle.std.specs.Prelude.{◌≤◌};
    ghost use Rattle.om_signs.specs.declared.limits.TheConstants.{MAX_ELEMENTS};
    ghost use Rattle.om_paint.specs.Classes.{HasMinusAloneAt};

    ghost elements = { λ a. a.elements };

    ghost holds = { λ a. HasMinusAloneAt };

    ghost valid = { λ a. a.elements ≤ MAX_ELEMENTS };

    fn class_of(&self, x: SignVec) -> Option<usize> {
        let minus = x.minus();
        if minus == 0 {
            return Some(0);
        }
        let place = minus.trailing_zeros();
        if minus == 1u32 << place {
            Some(place as usize + 1)
        } else {
            None
        }
    }
}
