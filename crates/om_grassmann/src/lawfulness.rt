//! Which statements the three-term relations give.

ghost use Rattle.std.specs.Prelude.{◌≡◌, ◌≤◌, ◌↔◌, IsTrue};
ghost use Rattle.om_grassmann.specs.Statements.{IsElement, IsApart, IsPlaced, AreTwo, HasSigns, IsLawful};
ghost use Rattle.om_grassmann.specs.Terms.{third, term_of};

use super::statement::Statement;
use super::terms::Terms;
use om_chirotope::Chirotope;
use om_signs::Sign;

/// Whether the three-term relations of the chirotope give a statement. The rank is 3. a to e are distinct elements
/// with b < c < d < e, and `small` and `big` are two of the numbers 1, 2 and 3. The term `small` isn't 0, and the
/// term `big` has the opposite sign. In a strict statement the third term has the sign of the term `small`, and in
/// an equation it is 0.
///
/// The statement may have any numbers. The call allocates no memory.
///
/// Source: Bokowski and Richter-Gebert, *On the finding of final polynomials*, 1990.
pub fn lawful(chi: &Chirotope, st: Statement) -> bool
    ensures { IsTrue result ↔ IsLawful chi.now st }
{
    if chi.rank() != 3 || !is_placed(st, chi.elements()) || !are_two(st.small, st.big) {
        return false;
    }
    have_signs(Terms::of(chi, st), st.small, st.big, st.strict)
}

/// Whether a to e are distinct elements of 1 to n, with b < c < d < e.
pub fn is_placed(st: Statement, n: u8) -> bool
    ensures { IsTrue result ↔ IsPlaced n st }
{
    is_element(st.a, n)
        && 1 <= st.b
        && st.b < st.c
        && st.c < st.d
        && st.d < st.e
        && st.e <= n
        && is_apart(st)
}

/// Whether a isn't one of b, c, d and e.
fn is_apart(st: Statement) -> bool
    ensures { IsTrue result ↔ IsApart st }
{
    st.a != st.b && st.a != st.c && st.a != st.d && st.a != st.e
}

/// Whether e is an element of 1 to n.
fn is_element(e: u8, n: u8) -> bool
    ensures { IsTrue result ↔ IsElement n e }
{
    1 <= e && e <= n
}

/// Whether i and j are two different ones of 1, 2 and 3.
pub fn are_two(i: u8, j: u8) -> bool
    ensures { IsTrue result ↔ AreTwo i j }
{
    is_element(i, 3) && is_element(j, 3) && i != j
}

/// Whether the signs of the three terms give the statement with these two sides.
pub fn have_signs(terms: Terms, small: u8, big: u8, strict: bool) -> bool
    requires { AreTwo small big }
    ensures { IsTrue result ↔ HasSigns strict (term_of terms small) (term_of terms (third small big))
        (term_of terms big) }
{
    let sign = terms.get(small);
    let rest = if strict { sign } else { Sign::Zero };
    sign != Sign::Zero && terms.get(big) == sign.neg() && terms.get(6 - (small + big)) == rest
}
