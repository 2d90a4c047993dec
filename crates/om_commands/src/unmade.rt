use om_convert::ConvertError;
use om_minors::MinorError;

/// Why an operation has no result.
#[derive(Clone, Copy)]
pub enum Unmade {
    /// It would remove the only element.
    LastElement,
    /// The operation goes through a chirotope that would have `values` values, which is more than a document may
    /// hold.
    TooWide { values: u32 },
    /// The list would have more than `limit` members.
    TooMany { limit: u32 },
    /// Memory ran out.
    Memory,
}

impl From<MinorError> for Unmade {
    ghost use Rattle.std.specs.Prelude.{◌≡◌};
    ghost use Rattle.om_commands.specs.Operations.{of_minor};

    ghost from_gives = { λ why e. e ≡ of_minor why };

    fn from(why: MinorError) -> Self {
        match why {
            MinorError::LastElement => Unmade::LastElement,
            MinorError::Memory => Unmade::Memory,
        }
    }
}

impl From<ConvertError> for Unmade {
    ghost use Rattle.std.specs.Prelude.{◌≡◌};
    ghost use Rattle.om_commands.specs.Operations.{of_conversion};

    ghost from_gives = { λ why e. e ≡ of_conversion why };

    fn from(why: ConvertError) -> Self {
        match why {
            ConvertError::TooWide { values } => Unmade::TooWide { values },
            ConvertError::TooMany { limit } => Unmade::TooMany { limit },
            ConvertError::Memory => Unmade::Memory,
        }
    }
}
