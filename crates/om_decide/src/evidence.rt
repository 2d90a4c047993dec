//! What the ends of the linear program stand for: entries of a certificate, and weights of brackets.

ghost use Rattle.std.specs.Prelude.{◌≡◌, length, All, IfOk};
ghost use Rattle.om_rows.specs.Rows.{IsPlace};
ghost use Rattle.om_certificate.specs.Weights.{nonzero_brackets};
ghost use Rattle.om_decide.specs.Columns.{entries_of, weight_on, weights_on};

use om_certificate::{Entry, Weight, is_nonzero};
use om_chirotope::Chirotope;
use om_grassmann::Statement;
use om_signs::{List, NoMemory};
use om_simplex::Count;
use om_subsets::Subset;
use std::alloc::Global;

/// The statements of counted columns, each with its multiplicity.
pub fn entries(
    alloc: Global,
    statements: &[Statement],
    counts: &[Count],
) -> Result<List<Entry>, NoMemory>
    requires { All (λ c. IsPlace (length statements.now) c.column) counts.now }
    ensures { IfOk result (λ entries. entries ≡ entries_of statements.now counts.now) }
{
    let mut entries = List::new(alloc);
    for count in counts {
        entries.push(Entry {
            statement: statements[count.column as usize - 1],
            times: count.times,
        })?;
    }
    Ok(entries)
}

/// The nonzero brackets with these weights, in lexicographic order.
pub fn bracket_weights(
    alloc: Global,
    chi: &Chirotope,
    values: &List<i128>,
) -> Result<List<Weight>, NoMemory>
    requires { chi.now.rank ≡ 3 }
    ensures { IfOk result (λ weights. weights ≡ weights_on (nonzero_brackets chi.now) values.now) }
{
    let mut weights = List::new(alloc);
    let nonzero = Subset::all(3, chi.elements()).filter(|bracket| is_nonzero(chi, *bracket));
    for (bracket, value) in nonzero.zip(values.as_slice().iter().copied()) {
        weights.push(bracket_weight(bracket, value))?;
    }
    Ok(weights)
}

/// A bracket with its weight.
fn bracket_weight(bracket: Subset, value: i128) -> Weight
    requires { length bracket.elements ≡ 3 }
    ensures { result ≡ weight_on bracket.elements value }
{
    let (a, b, c) = bracket.three_elements();
    Weight { a, b, c, value }
}
