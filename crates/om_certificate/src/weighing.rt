//! The check whether a list of numbers are weights.

ghost use Rattle.std.specs.Prelude.{◌≡◌, ◌≤◌, ◌<◌, ◌+◌, ◌↔◌, ◌+ℤ◌, pos, slice_index_or, length, All, IsTrue};
ghost use Rattle.std.specs.Prelude.{IfErr, OnOk, IfSome, IfNone};
ghost use Rattle.om_subsets.specs.Subsets.{choose, rank_of, IsSubsetFrom};
ghost use Rattle.om_chirotope.specs.Map.{chi_of};
ghost use Rattle.om_grassmann.specs.declared.statement.Statement.{Statement};
ghost use Rattle.om_grassmann.specs.Statements.{IsLawful, AreTwo};
ghost use Rattle.om_grassmann.specs.Sides as sides;
ghost use Rattle.om_certificate.specs.Weights.{AreWeights, AreOfBrackets, IsMetBy, Compares, bracket_of};
ghost use Rattle.om_certificate.specs.Weights.{nonzero_brackets, is_nonzero};
ghost use Rattle.om_certificate.specs.Validity.{AreWeightsWithinLimits};
ghost use Rattle.om_certificate.specs.Refusals.{IsFirstOtherBracket, IsFirstUnmet, IsWeightRefusal};
ghost use Rattle.om_certificate.specs.Tables.{IsWeightTable, IsOfTriple, AreSmall, sum_at};

use super::cert_refused::CertRefused;
use super::room::ROOM;
use super::weight::Weight;
use om_chirotope::Chirotope;
use om_grassmann::{Statement, following, nth_statement, sides};
use om_signs::{MAX_ELEMENTS, MAX_ENTRIES, Sign};
use om_subsets::Subset;

/// Whether weights are those of the nonzero brackets and satisfy every lawful statement, or the first reason
/// against it.
pub fn check_weights(chi: &Chirotope, weights: &[Weight]) -> Result<(), CertRefused>
    requires rank { chi.now.rank ≡ 3 }
    requires part { 3 ≤ chi.now.elements }
    requires limits { AreWeightsWithinLimits weights.now }
    ensures accepted { OnOk result (AreWeights chi.now weights.now) }
    ensures refused { IfErr result (IsWeightRefusal chi.now weights.now) }
{
    let wanted = count_nonzero(chi);
    if weights.len() != wanted as usize {
        return Err(CertRefused::Number {
            wanted,
            given: weights.len() as u32,
        });
    }
    if let Some(place) = first_other_bracket(chi, weights) {
        return Err(CertRefused::Bracket {
            entry: place as u32 + 1,
        });
    }
    match first_unmet(chi, weights) {
        None => Ok(()),
        Some(statement) => Err(CertRefused::WeightFails { statement }),
    }
}

/// The number of nonzero brackets.
fn count_nonzero(chi: &Chirotope) -> u32
    requires { chi.now.rank ≡ 3 }
    ensures { result ≡ length (nonzero_brackets chi.now) }
{
    Subset::all(3, chi.elements())
        .filter(|bracket| is_nonzero(chi, *bracket))
        .count() as u32
}

/// Whether a bracket of a chirotope of rank 3 isn't 0. The bracket is a set of three elements of the chirotope. The
/// call allocates no memory.
pub fn is_nonzero(chi: &Chirotope, bracket: Subset) -> bool
    requires rank { chi.now.rank ≡ 3 }
    requires n { bracket.n ≡ chi.now.elements }
    requires size { length bracket.elements ≡ 3 }
    ensures { result ≡ is_nonzero (chi_of chi.now bracket.elements) }
{
    match chi.at(bracket) {
        Sign::Zero => false,
        _ => true,
    }
}

/// The place, from 0, of the first weight that isn't given to the nonzero bracket at its place, or None.
fn first_other_bracket(chi: &Chirotope, weights: &[Weight]) -> Option<usize>
    requires rank { chi.now.rank ≡ 3 }
    requires number { length weights.now ≡ length (nonzero_brackets chi.now) }
    ensures none { IfNone result (AreOfBrackets chi.now weights.now) }
    ensures small { IfSome result (λ k. k < length weights.now) }
    ensures first { IfSome result (λ k. IsFirstOtherBracket chi.now weights.now (k + 1)) }
{
    Subset::all(3, chi.elements())
        .filter(|bracket| is_nonzero(chi, *bracket))
        .zip(weights.iter().copied())
        .position(|(bracket, weight)| !is_weight_of(weight, bracket))
}

/// Whether a weight is given to this bracket.
fn is_weight_of(weight: Weight, bracket: Subset) -> bool
    requires size { length bracket.elements ≡ 3 }
    requires lawful { IsSubsetFrom 1 bracket.n bracket.elements }
    ensures { IsTrue result ↔ (bracket.elements ≡ bracket_of weight) }
{
    let n = bracket.n();
    if !is_of_triple(weight, n) {
        return false;
    }
    Subset::triple(weight.a, weight.b, weight.c, n) == bracket
}

/// Whether a weight is given to three increasing elements of 1 to n.
fn is_of_triple(weight: Weight, n: u8) -> bool
    ensures { IsTrue result ↔ IsOfTriple n weight }
{
    1 <= weight.a && weight.a < weight.b && weight.b < weight.c && weight.c <= n
}

/// Writes the weights into a table of zeros, each at the place of its bracket. It goes from the last weight to the
/// first, so that of two weights of one bracket the first one remains, which is the one that counts.
fn fill(chi: &Chirotope, weights: &[Weight], table: &mut [i128])
    requires rank { chi.now.rank ≡ 3 }
    requires part { 3 ≤ chi.now.elements }
    requires limits { AreWeightsWithinLimits weights.now }
    requires brackets { AreOfBrackets chi.now weights.now }
    requires room { choose chi.now.elements 3 ≤ length table.old }
    requires empty { All (λ z. z ≡ pos 0) table.old }
    ensures { IsWeightTable chi.now.elements weights.now table.new }
{
    for weight in weights.iter().rev() {
        let bracket = Subset::triple(weight.a, weight.b, weight.c, chi.elements());
        table[bracket.rank() as usize] = weight.value;
    }
}

/// The first lawful statement that the weights don't satisfy, or None.
fn first_unmet(chi: &Chirotope, weights: &[Weight]) -> Option<Statement>
    requires rank { chi.now.rank ≡ 3 }
    requires part { 3 ≤ chi.now.elements }
    requires limits { AreWeightsWithinLimits weights.now }
    requires brackets { AreOfBrackets chi.now weights.now }
    ensures none { IfNone result ((st : Statement) → IsLawful chi.now st → IsMetBy weights.now st) }
    ensures first { IfSome result (λ st. IsFirstUnmet chi.now weights.now st) }
{
    let n = chi.elements();
    let mut table = [0i128; ROOM];
    fill(chi, weights, &mut table);
    let mut current = nth_statement(chi, 0);
    while let Some(st) = current {
        if !is_met(n, &table, st) {
            return Some(st);
        }
        current = following(chi, st);
    }
    None
}

/// Whether the weights satisfy a lawful statement, found with the table of the weights.
fn is_met(n: u8, table: &[i128], st: Statement) -> bool
    requires low { 1 ≤ n }
    requires high { n ≤ MAX_ELEMENTS }
    requires distinct { sides.AreDistinct n st }
    requires two { AreTwo st.small st.big }
    requires room { choose n 3 ≤ length table.now }
    requires small { AreSmall table.now }
    ensures { IsTrue result ↔ Compares st.strict (sum_at n table.now st st.small) (sum_at n table.now st st.big) }
{
    let (small_first, small_second, big_first, big_second) = sides(st, n);
    compares(
        st.strict,
        sum_of(table, small_first, small_second),
        sum_of(table, big_first, big_second),
    )
}

/// The sum of the weights of two brackets, found with the table of the weights.
fn sum_of(table: &[i128], first: Subset, second: Subset) -> i128
    requires first { length first.elements ≡ 3 }
    requires second { length second.elements ≡ 3 }
    requires same { second.n ≡ first.n }
    requires room { choose first.n 3 ≤ length table.now }
    requires small { AreSmall table.now }
    ensures { result ≡ slice_index_or table.now (rank_of first.n first.elements) (pos 0)
        +ℤ slice_index_or table.now (rank_of second.n second.elements) (pos 0) }
{
    table[first.rank() as usize] + table[second.rank() as usize]
}

/// Whether the sums over the two sides of a statement compare as the statement says.
fn compares(strict: bool, small: i128, big: i128) -> bool
    ensures { IsTrue result ↔ Compares strict small big }
{
    if strict { small < big } else { small == big }
}
