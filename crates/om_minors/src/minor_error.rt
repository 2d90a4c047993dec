ghost use Rattle.std.specs.Prelude.{◌≡◌};

use om_signs::NoMemory;
use thiserror::Error;

/// Why there is no minor.
#[derive(Clone, Copy, Debug, PartialEq, Eq, Error)]
pub enum MinorError {
    /// The element is the only one, and an oriented matroid has at least one.
    #[error("the last element")]
    LastElement,
    /// Memory ran out.
    #[error("out of memory")]
    Memory,
}

impl From<NoMemory> for MinorError {
    ghost use Rattle.om_minors.specs.declared.minor_error.MinorError.TheVariants.{Memory};

    ghost from_gives = { λ _ e. e ≡ Memory };

    fn from(_: NoMemory) -> Self {
        MinorError::Memory
    }
}
