use thiserror::Error;

/// The first violated instance of the axioms of covectors. Positions in the given list count from 1.
///
/// Source: Björner, Las Vergnas, Sturmfels, White and Ziegler, *Oriented Matroids*, chapter 4.
#[derive(Clone, Copy, Debug, PartialEq, Eq, Error)]
pub enum CovRefused {
    /// The zero vector is no member.
    #[error("the zero vector is missing")]
    NoZero,
    /// The negative of member `i` is no member.
    #[error("the negative of member {i} is missing")]
    NoNegative { i: u32 },
    /// The composition of member `i` and member `j`, in this order, is no member.
    #[error("the composition of members {i} and {j} is missing")]
    NoComposition { i: u32, j: u32 },
    /// Element `e` is in the separation of members `i` and `j`, and no member eliminates it. That is, no member is
    /// zero at `e` and equals their composition outside their separation.
    #[error("no member eliminates {e} from members {i} and {j}")]
    NoElimination { i: u32, j: u32, e: u8 },
}
