//! The decision whether vectors realize a chirotope.

ghost use Rattle.std.specs.Prelude.{◌≡◌, ◌≤◌, length, All, Ok, IfOk, IfErr};
ghost use Rattle.std.specs.Prelude as prelude;
ghost use Rattle.om_chirotope.specs.Chirotope.{IsChirotope};
ghost use Rattle.om_signs.specs.declared.limits.TheConstants.{MAX_ELEMENTS};
ghost use Rattle.om_grassmann.specs.Order.{AreAll};
ghost use Rattle.om_rows.specs.Rows.{IsPlace};
ghost use Rattle.om_points.specs.Searches.{IsFound, IsUnfound};
ghost use Rattle.om_vectors.specs.WholeVectors.{WholeVector};
ghost use Rattle.om_certificate.specs.Forms.{IsVerdictInForm};
ghost use Rattle.om_certificate.specs.Validity.{IsValid, IsWithinLimits};
ghost use Rattle.om_certificate.specs.Verdicts.{certificate_of};
ghost use Rattle.om_certificate.specs.Weights.{nonzero_brackets};
ghost use Rattle.om_decide.specs.Answers.{IsRefusal};
ghost use Rattle.om_decide.specs.Columns.{entries_of, weights_on};
ghost use Rattle.om_budgets.specs.Ranges.{AreBudgets};
ghost use Rattle.om_decide.specs.Verdicts.{IsVerdictOf};

use super::decide_error::DecideError;
use super::evidence::{bracket_weights, entries};
use super::making::lawful_statements;
use super::program::run;
use om_budgets::Budgets;
use om_certificate::{LpEnd, Verdict};
use om_chirotope::Chirotope;
use om_grassmann::Statement;
use om_points::search;
use om_signs::{List, NoMemory};
use om_simplex::{Count, Outcome};
use om_vectors::Unfound;
use std::alloc::Global;

/// The verdict on a chirotope of rank 3: whether whole-number vectors realize it.
///
/// - [`Verdict::Realizable`] has the vectors that [`search`] finds in the box within the steps.
/// - [`Verdict::Nonrealizable`] has the statements of a biquadratic final polynomial with their multiplicities. The
///   linear program over the lawful statements ended balanced, so no vectors of any size realize the chirotope.
/// - [`Verdict::Undecided`] has weights of the nonzero brackets, and where the search ended. The search found no
///   vectors, and the program ended with weights, so there is no such polynomial.
/// - [`Verdict::Limit`] has the end of the program and where the search ended, without vectors. The program made all
///   its pivots or reached a number that is too wide. `Pivots` has the budget and a basis number for each row.
///
/// The verdict depends only on the chirotope and the budgets. Its vectors, entries or weights are valid evidence,
/// as defined for [`check`](om_certificate::check), and within the limits of `check`, so that it may be called with
/// them. The verdict has the forms and limits that a claim can carry.
///
/// Each budget is in the range that [`Budgets`] names. `NotRank3` comes exactly if the rank isn't 3. `Memory` comes
/// only if memory runs out, in rank 3, and the search found no vectors: the search takes no memory.
///
/// Source: Bokowski and Richter-Gebert, *On the finding of final polynomials*, 1990.
pub fn decide(alloc: Global, chi: &Chirotope, budgets: Budgets) -> Result<Verdict, DecideError>
    requires { AreBudgets budgets }
    ensures verdict { IfOk result (IsVerdictOf chi.now budgets) }
    ensures exactly_found { (vs : prelude.List WholeVector) → IsFound budgets.box_size chi.now budgets.steps vs
        → result ≡ Ok (Verdict.Realizable vs) }
    ensures shown { IfOk result (λ verdict. IfOk (certificate_of verdict) (IsValid chi.now)) }
    ensures limits { IfOk result (λ verdict. IfOk (certificate_of verdict) IsWithinLimits) }
    ensures form { IfOk result IsVerdictInForm }
    ensures refused { IfErr result (IsRefusal chi.now) }
{
    if chi.rank() != 3 {
        return Err(DecideError::NotRank3 { r: chi.rank() });
    }
    match search(chi, budgets.box_size, budgets.steps) {
        Ok(word) => Ok(Verdict::Realizable(word)),
        Err(unfound) => Ok(by_tableau(alloc, chi, budgets, unfound)?),
    }
}

/// The verdict on a chirotope of rank 3, if the search ended without vectors.
fn by_tableau(
    alloc: Global,
    chi: &Chirotope,
    budgets: Budgets,
    unfound: Unfound,
) -> Result<Verdict, NoMemory>
    requires rank { chi.now.rank ≡ 3 }
    requires lawful { IsChirotope chi.now }
    requires small { chi.now.elements ≤ MAX_ELEMENTS }
    requires budgets { AreBudgets budgets }
    requires unfound { IsUnfound budgets.box_size chi.now budgets.steps unfound }
    ensures { IfOk result (IsVerdictOf chi.now budgets) }
{
    let statements = lawful_statements(alloc, chi)?;
    by_statements(alloc, chi, statements.as_slice(), budgets, unfound)
}

/// The verdict on a chirotope of rank 3 found with all its lawful statements, if the search ended without vectors.
fn by_statements(
    alloc: Global,
    chi: &Chirotope,
    statements: &[Statement],
    budgets: Budgets,
    unfound: Unfound,
) -> Result<Verdict, NoMemory>
    requires rank { chi.now.rank ≡ 3 }
    requires lawful { IsChirotope chi.now }
    requires small { chi.now.elements ≤ MAX_ELEMENTS }
    requires all { AreAll chi.now statements.now }
    requires budgets { AreBudgets budgets }
    requires unfound { IsUnfound budgets.box_size chi.now budgets.steps unfound }
    ensures { IfOk result (IsVerdictOf chi.now budgets) }
{
    match run(alloc, chi, statements, budgets.pivots)? {
        Outcome::Balanced(counts) => balanced(alloc, statements, counts.as_slice()),
        Outcome::Weights(values) => weighed(alloc, chi, &values, unfound),
        Outcome::PivotLimit { basis } => {
            let count = budgets.pivots;
            Ok(Verdict::Limit(LpEnd::Pivots { count, basis }, unfound))
        }
        Outcome::Width {
            stage,
            pivot,
            row,
            place,
        } => {
            let end = LpEnd::Width {
                stage,
                pivot,
                row,
                place,
            };
            Ok(Verdict::Limit(end, unfound))
        }
    }
}

/// The verdict with the counted statements of a balanced end.
fn balanced(alloc: Global, statements: &[Statement], counts: &[Count]) -> Result<Verdict, NoMemory>
    requires { All (λ c. IsPlace (length statements.now) c.column) counts.now }
    ensures { IfOk result (λ verdict. verdict ≡ Verdict.Nonrealizable (entries_of statements.now counts.now)) }
{
    Ok(Verdict::Nonrealizable(entries(alloc, statements, counts)?))
}

/// The verdict with the weights of the nonzero brackets, if the search ended without vectors.
fn weighed(
    alloc: Global,
    chi: &Chirotope,
    values: &List<i128>,
    unfound: Unfound,
) -> Result<Verdict, NoMemory>
    requires { chi.now.rank ≡ 3 }
    ensures { IfOk result
        (λ verdict. verdict ≡ Verdict.Undecided (weights_on (nonzero_brackets chi.now) values.now) unfound) }
{
    let weights = bracket_weights(alloc, chi, values)?;
    Ok(Verdict::Undecided(weights, unfound))
}
