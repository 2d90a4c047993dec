//! Commands with numbers after the first word.

ghost use Rattle.std.specs.Prelude.{◌∷◌, map, string_bytes};
ghost use Rattle.om_words.specs.Words.{IsRead};
ghost use Rattle.om_words.specs.Options.{AreLines, AreBudgets, AreSeedAndCount};

use super::options::{number_of, number_within, options};
use super::setting::Setting;
use om_budgets::Budgets;
use om_printing::Usage;

/// The greatest number of lines of a listing, from 1 to [`om_signs::MAX_LINES`].
pub fn lines(rest: &[String]) -> Result<u64, Usage>
    ensures { IsRead AreLines (map string_bytes rest.now) result }
{
    options(&[Setting::First], rest, 1)?;
    Ok(u64::from(number_of(rest, Setting::First)))
}

/// The budgets of a decision.
pub fn budgets(rest: &[String]) -> Result<Budgets, Usage>
    ensures { IsRead AreBudgets (map string_bytes rest.now) result }
{
    options(
        &[Setting::BoxSize, Setting::Steps, Setting::Pivots],
        rest,
        1,
    )?;
    Ok(Budgets {
        box_size: number_of(rest, Setting::BoxSize) as u16,
        steps: u64::from(number_of(rest, Setting::Steps)),
        pivots: number_of(rest, Setting::Pivots),
    })
}

/// The number from which vectors are made, and how many are made.
pub fn seed_and_count(rest: &[String]) -> Result<(u32, u8), Usage>
    ensures { IsRead AreSeedAndCount (map string_bytes rest.now) result }
{
    match rest {
        [] => Err(Usage { word: 2 }),
        [word, more @ ..] => seed_before(word, more),
    }
}

fn seed_before(word: &String, more: &[String]) -> Result<(u32, u8), Usage>
    ensures { IsRead AreSeedAndCount (string_bytes word.now ∷ map string_bytes more.now) result }
{
    let Some(seed) = number_within(word.as_bytes(), 0, u32::MAX) else {
        return Err(Usage { word: 2 });
    };
    options(&[Setting::Count], more, 2)?;
    Ok((seed, number_of(more, Setting::Count) as u8))
}
