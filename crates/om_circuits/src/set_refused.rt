use thiserror::Error;

/// The first violated instance of the axioms of circuits. Positions in the given list count from 1.
///
/// Source: Björner, Las Vergnas, Sturmfels, White and Ziegler, *Oriented Matroids*, chapter 3.
#[derive(Clone, Copy, Debug, PartialEq, Eq, Error)]
pub enum SetRefused {
    /// Member `i` is the zero vector.
    #[error("member {i} is zero")]
    Zero { i: u32 },
    /// The negative of member `i` is no member.
    #[error("the negative of member {i} is missing")]
    NoNegative { i: u32 },
    /// The support of member `i` lies in that of member `j`, and the two are neither equal nor negatives.
    #[error("the support of member {i} lies in that of member {j}")]
    Nested { i: u32, j: u32 },
    /// Member `i` is plus and member `j` is minus at element `e`, and no member eliminates `e` from them.
    #[error("no member eliminates {e} from members {i} and {j}")]
    NoElimination { i: u32, j: u32, e: u8 },
}
