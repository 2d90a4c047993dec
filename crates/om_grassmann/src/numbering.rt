//! The lawful statements by number.

ghost use Rattle.std.specs.Prelude.{◌↔◌, IsNone, IfNone, IfSome};
ghost use Rattle.om_grassmann.specs.Order.{IsNumber, HasAtMost};

use super::frame::Frame;
use super::statement::Statement;
use super::walk::{first_from, following};
use om_chirotope::Chirotope;

/// The lawful statement with the number k, counted from 0, in the lexicographic order by a, b, c, d, e, `small` and
/// `big`. None exactly if there are at most k lawful statements. The call allocates no memory.
///
/// Source: Bokowski and Richter-Gebert, *On the finding of final polynomials*, 1990.
pub fn nth_statement(chi: &Chirotope, k: u32) -> Option<Statement>
    ensures none { IsNone result ↔ HasAtMost chi.now k }
    ensures number { IfSome result (λ t. IsNumber chi.now k t) }
{
    let mut st = first_statement(chi)?;
    for _turn in 0..k {
        st = following(chi, st)?;
    }
    Some(st)
}

/// The first lawful statement, or None.
fn first_statement(chi: &Chirotope) -> Option<Statement>
    ensures none { IfNone result (HasAtMost chi.now 0) }
    ensures first { IfSome result (λ t. IsNumber chi.now 0 t) }
{
    if chi.rank() != 3 || chi.elements() < 5 {
        return None;
    }
    first_from(chi, Frame::first())
}
