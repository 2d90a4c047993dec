ghost use Rattle.std.specs.Prelude.{◌≡◌};

use om_signs::NoMemory;
use thiserror::Error;

/// Why some vectors give no chirotope of rank 3.
#[derive(Clone, Copy, Debug, PartialEq, Eq, Error)]
pub enum SignsError {
    /// Every triple product is 0.
    #[error("all triple products are 0")]
    RankLow,
    /// Memory ran out.
    #[error("out of memory")]
    Memory,
}

impl SignsError {
    /// The error of a call that only memory can stop.
    pub fn memory_alone(self) -> NoMemory
        requires { self ≡ SignsError.Memory }
    {
        NoMemory
    }
}

impl From<NoMemory> for SignsError {
    ghost use Rattle.om_vectors.specs.declared.signs_error.SignsError.TheVariants.{Memory};

    ghost from_gives = { λ _ e. e ≡ Memory };

    fn from(_: NoMemory) -> Self {
        SignsError::Memory
    }
}
