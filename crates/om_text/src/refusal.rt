ghost use Rattle.std.specs.Prelude.{◌≡◌, Err};

use super::draft::Draft;
use super::state::State;
use om_document::Code;
use om_signs::NoMemory;

/// Why a line can't be read.
#[derive(Clone, Copy)]
pub enum Refusal {
    /// Memory ran out.
    Memory,
    /// The line is at fault, with this code.
    Line(Code),
}

impl From<NoMemory> for Refusal {
    ghost use Rattle.om_text.specs.declared.refusal.Refusal.TheVariants.{Memory};

    ghost from_gives = { λ _ e. e ≡ Memory };

    fn from(_: NoMemory) -> Self {
        Refusal::Memory
    }
}

/// A line that isn't read, with which the draft ends.
pub fn refuse(_draft: Draft, why: Refusal) -> Result<State, Refusal>
    ensures { result ≡ Err why }
{
    Err(why)
}
