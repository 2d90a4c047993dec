use om_signs::NoMemory;

/// Why there is no chirotope to work on.
#[derive(Clone, Copy)]
pub enum Unchosen {
    /// The document is a list. Its chirotope has this rank, and would have `values` values, more than a document
    /// may hold.
    TooWide { rank: u8, values: u32 },
    /// Memory ran out for the chirotope of a list.
    Memory,
}

impl From<NoMemory> for Unchosen {
    ghost use Rattle.std.specs.Prelude.{◌≡◌};
    ghost use Rattle.om_representation.specs.declared.unchosen.Unchosen.TheVariants.{Memory};

    ghost from_gives = { λ _ e. e ≡ Memory };

    fn from(_: NoMemory) -> Self {
        Unchosen::Memory
    }
}
