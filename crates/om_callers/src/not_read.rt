use om_chirotope::MapRefused;
use om_signs::NoMemory;
use om_text::Code;
use thiserror::Error;

/// Why bytes give no covectors.
#[derive(Clone, Copy, Debug, PartialEq, Eq, Error)]
pub enum NotRead {
    /// The bytes are no document: the first line at fault, counted from 1, and what is wrong with it.
    #[error("line {line}: {code}")]
    Line { line: u32, code: Code },
    /// The document is of another kind than `chirotope`.
    #[error("no chirotope is given")]
    Kind,
    /// The map is no chirotope.
    #[error("{0}")]
    Axioms(MapRefused),
    /// The map is a chirotope, and it has more than `limit` covectors. The limit is
    /// [`MAX_MEMBERS`](om_signs::MAX_MEMBERS), the greatest length of a list.
    #[error("more than {limit} covectors")]
    TooMany { limit: u32 },
    /// Memory ran out.
    #[error("out of memory")]
    Memory,
}

impl From<NoMemory> for NotRead {
    ghost use Rattle.std.specs.Prelude.{◌≡◌};
    ghost use Rattle.om_callers.specs.declared.not_read.NotRead.TheVariants.{Memory};

    ghost from_gives = { λ _ e. e ≡ Memory };

    fn from(_: NoMemory) -> Self {
        NotRead::Memory
    }
}
