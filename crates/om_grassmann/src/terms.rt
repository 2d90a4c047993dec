//! The terms of the three-term relation.

ghost use Rattle.std.specs.Prelude.{◌≡◌};
ghost use Rattle.om_grassmann.specs.Terms.{bracket, first_term, second_term, third_term, term_of, told};
ghost use Rattle.om_grassmann.specs.Statements.{IsElement, IsPlaced};

use super::statement::Statement;
use om_chirotope::Chirotope;
use om_signs::Sign;

/// The signs of the three terms of a statement.
#[derive(Clone, Copy)]
pub struct Terms {
    pub first: Sign,
    pub second: Sign,
    pub third: Sign,
}

impl Terms {
    /// The terms of a statement on distinct elements, for a chirotope of rank 3.
    pub fn of(chi: &Chirotope, st: Statement) -> Terms
        requires rank { chi.now.rank ≡ 3 }
        requires placed { IsPlaced chi.now.elements st }
        ensures first { result.first ≡ first_term chi.now st }
        ensures second { result.second ≡ second_term chi.now st }
        ensures third { result.third ≡ third_term chi.now st }
    {
        Terms {
            first: value(chi, st.a, st.b, st.c).times(value(chi, st.a, st.d, st.e)),
            second: value(chi, st.a, st.b, st.d)
                .times(value(chi, st.a, st.c, st.e))
                .neg(),
            third: value(chi, st.a, st.b, st.e).times(value(chi, st.a, st.c, st.d)),
        }
    }

    /// What a lawful statement determines about the signs of its terms: these signs, or all three negated.
    pub fn told_by(st: Statement) -> Terms
        ensures first { result.first ≡ told st 1 }
        ensures second { result.second ≡ told st 2 }
        ensures third { result.third ≡ told st 3 }
    {
        Terms {
            first: told_sign(st, 1),
            second: told_sign(st, 2),
            third: told_sign(st, 3),
        }
    }

    /// The term with this number, from 1 to 3.
    pub fn get(self, number: u8) -> Sign
        ensures { result ≡ term_of self number }
    {
        if number == 1 {
            self.first
        } else if number == 2 {
            self.second
        } else {
            self.third
        }
    }
}

/// The bracket of three elements, for a chirotope of rank 3.
fn value(chi: &Chirotope, x: u8, y: u8, z: u8) -> Sign
    requires rank { chi.now.rank ≡ 3 }
    requires x { IsElement chi.now.elements x }
    requires y { IsElement chi.now.elements y }
    requires z { IsElement chi.now.elements z }
    ensures { result ≡ bracket chi.now x y z }
{
    chi.value(&[x, y, z])
}

/// What a lawful statement determines about the sign of the term with this number, from 1 to 3: the signs of all
/// three terms are these or their negatives.
fn told_sign(st: Statement, number: u8) -> Sign
    ensures { result ≡ told st number }
{
    if number == st.small {
        Sign::Plus
    } else if number == st.big {
        Sign::Minus
    } else if st.strict {
        Sign::Plus
    } else {
        Sign::Zero
    }
}
