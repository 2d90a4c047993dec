ghost use Rattle.std.specs.Prelude.{◌≡◌};

use om_signs::NoMemory;
use thiserror::Error;

/// Why a conversion has no result.
#[derive(Clone, Copy, Debug, PartialEq, Eq, Error)]
pub enum ConvertError {
    /// A list is converted through the chirotope that denotes the same, and this chirotope has `values` values,
    /// more than [`MAX_VALUES`](om_signs::MAX_VALUES).
    #[error("the chirotope has {values} values")]
    TooWide { values: u32 },
    /// The result would have more than `limit` members.
    #[error("more than {limit} members")]
    TooMany { limit: u32 },
    /// Memory ran out.
    #[error("out of memory")]
    Memory,
}

impl ConvertError {
    /// The error of a call that only memory can stop.
    pub fn memory_alone(self) -> NoMemory
        requires { self ≡ ConvertError.Memory }
    {
        NoMemory
    }
}

impl From<NoMemory> for ConvertError {
    ghost use Rattle.om_convert.specs.declared.convert_error.ConvertError.TheVariants.{Memory};

    ghost from_gives = { λ _ e. e ≡ Memory };

    fn from(_: NoMemory) -> Self {
        ConvertError::Memory
    }
}
