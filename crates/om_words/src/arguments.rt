//! Commands with no word after the first one, and commands with any number of elements after it.

ghost use Rattle.std.specs.Prelude.{ℕ, ◌≡◌, ◌↔◌, ◌<◌, map, string_bytes};
ghost use Rattle.om_words.specs.Words.{IsBare, AreElements, IsElement, IsRead};

use super::spelling::element;
use super::task::Task;
use om_printing::Usage;
use om_signs::MAX_ELEMENTS;
use om_subsets::Subset;

/// The task, if no word follows the first word of its command.
pub fn bare(task: Task, rest: &[String]) -> Result<Task, Usage>
    ensures { IsRead (IsBare task) (map string_bytes rest.now) result }
{
    if rest.is_empty() {
        Ok(task)
    } else {
        Err(Usage { word: 2 })
    }
}

/// The mask of the elements whose numbers follow the first word of a command.
pub fn elements(rest: &[String]) -> Result<u32, Usage>
    ensures { IsRead AreElements (map string_bytes rest.now) result }
{
    let mut chosen = Subset::from_mask(0, MAX_ELEMENTS);
    let mut last = 0u8;
    let mut place = 1u32;
    for word in rest {
        place += 1;
        let Some(e) = element_above(word, last) else {
            return Err(Usage { word: place });
        };
        chosen = chosen.with(e);
        last = e;
    }
    if last == 0 {
        return Err(Usage { word: 2 });
    }
    Ok(chosen.mask())
}

/// The element whose number the word is, if it is greater than `last`.
fn element_above(word: &String, last: u8) -> Option<u8>
    ensures { (e : ℕ) → (result ≡ Some e) ↔ (IsElement (string_bytes word.now) e × (last < e)) }
{
    let e = element(word)?;
    if last < e { Some(e) } else { None }
}
