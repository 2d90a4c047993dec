//! The brackets of the two sides of a statement.

ghost use Rattle.std.specs.Prelude.{◌≢◌, ◌≤◌};
ghost use Rattle.om_grassmann.specs.Statements.{IsElement};
ghost use Rattle.om_grassmann.specs.Sides.{triple, first_bracket, second_bracket, IsTriple, AreDistinct};

use super::statement::Statement;
use om_signs::MAX_ELEMENTS;
use om_subsets::Subset;

/// The brackets of a statement as sets: the two of the side `small`, and then the two of the side `big`. The
/// brackets of term 1 are abc and ade, those of term 2 are abd and ace, and those of term 3 are abe and acd.
///
/// a to e are distinct elements of 1 to n, in any order. n is from 1 to [`MAX_ELEMENTS`], and `small` and `big` are
/// from 1 to 3. The call allocates no memory.
///
/// Source: Bokowski and Richter-Gebert, *On the finding of final polynomials*, 1990.
pub fn sides(st: Statement, n: u8) -> (Subset, Subset, Subset, Subset)
    requires low { 1 ≤ n }
    requires high { n ≤ MAX_ELEMENTS }
    requires distinct { AreDistinct n st }
    requires small { IsElement 3 st.small }
    requires big { IsElement 3 st.big }
    ensures small_first { IsTriple n (first_bracket st st.small) result.0 }
    ensures small_second { IsTriple n (second_bracket st st.small) result.1 }
    ensures big_first { IsTriple n (first_bracket st st.big) result.2 }
    ensures big_second { IsTriple n (second_bracket st st.big) result.3 }
{
    let (small_first, small_second) = term_brackets(st, st.small, n);
    let (big_first, big_second) = term_brackets(st, st.big, n);
    (small_first, small_second, big_first, big_second)
}

/// The two brackets of the term with this number, from 1 to 3.
fn term_brackets(st: Statement, number: u8, n: u8) -> (Subset, Subset)
    requires high { n ≤ MAX_ELEMENTS }
    requires distinct { AreDistinct n st }
    ensures first { IsTriple n (first_bracket st number) result.0 }
    ensures second { IsTriple n (second_bracket st number) result.1 }
{
    if number == 1 {
        (set_of(st.a, st.b, st.c, n), set_of(st.a, st.d, st.e, n))
    } else if number == 2 {
        (set_of(st.a, st.b, st.d, n), set_of(st.a, st.c, st.e, n))
    } else {
        (set_of(st.a, st.b, st.e, n), set_of(st.a, st.c, st.d, n))
    }
}

/// The set of three distinct elements of 1 to n, with a contract that speaks of sorted triples: it is proved once for
/// the six brackets.
fn set_of(x: u8, y: u8, z: u8, n: u8) -> Subset
    requires high { n ≤ MAX_ELEMENTS }
    requires x { IsElement n x }
    requires y { IsElement n y }
    requires z { IsElement n z }
    requires x_y { x ≢ y }
    requires x_z { x ≢ z }
    requires y_z { y ≢ z }
    ensures { IsTriple n (triple x y z) result }
{
    Subset::triple(x, y, z, n)
}
