use om_grassmann::Statement;
use om_subsets::Subset;
use thiserror::Error;

/// Why evidence proves nothing on a chirotope. Entries and weights count from 1.
///
/// Source: Bokowski and Richter-Gebert, *On the finding of final polynomials*, 1990.
#[derive(Clone, Copy, Debug, PartialEq, Eq, Error)]
pub enum CertRefused {
    /// The chirotope has the rank `r`, which isn't 3.
    #[error("the rank is {r}")]
    NotRank3 {
        r: u8,
    },
    /// There aren't as many vectors as elements, or as many weights as nonzero brackets.
    #[error("{wanted} are wanted, and {given} are given")]
    Number {
        wanted: u32,
        given: u32,
    },
    /// The first triple of elements whose vectors have a triple product of the wrong sign.
    #[error("a triple product has another sign")]
    WrongSign {
        triple: Subset,
    },
    /// The first entry whose statement isn't lawful.
    #[error("entry {entry} is not lawful")]
    Unlawful {
        entry: u32,
    },
    /// The first bracket that doesn't occur equally often on small sides and on big sides, with the two counts.
    #[error("a bracket stands {small} times on small sides and {big} times on big sides")]
    Unbalanced {
        bracket: Subset,
        small: u128,
        big: u128,
    },
    /// No entry is strict.
    #[error("no entry is strict")]
    NoStrict,
    /// The number of the first weight that isn't given to the nonzero bracket at its place.
    #[error("weight {entry} is not that of the next nonzero bracket")]
    Bracket {
        entry: u32,
    },
    /// The first lawful statement that the weights don't satisfy.
    #[error("a statement fails")]
    WeightFails {
        statement: Statement,
    },
}
