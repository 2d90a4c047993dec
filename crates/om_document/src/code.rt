use thiserror::Error;

/// What is wrong with a line. If several hold of one line, it has the first code in this list.
#[derive(Clone, Copy, Debug, PartialEq, Eq, Error)]
pub enum Code {
    /// The first line with words is neither `om 1` nor `om 2`.
    #[error("the first line with words is neither `om 1` nor `om 2`")]
    Version,
    /// The first word of the kind line names no kind.
    #[error("the kind line names no kind")]
    Kind,
    /// The kind line doesn't have as many words as its kind requires, or it has a word that isn't a plain number.
    #[error("the kind line has not the plain numbers of its kind")]
    Header,
    /// The kind line gives `n` elements, and this is 0 or above [`om_signs::MAX_ELEMENTS`].
    #[error("{n} elements are out of range")]
    Elements { n: u32 },
    /// The kind line gives the rank `r`, and this is above the number of elements.
    #[error("rank {r} is above the number of elements")]
    Rank { r: u32 },
    /// The kind line gives a map `values` values, one for each set of its rank, and this is above
    /// [`om_signs::MAX_VALUES`].
    #[error("{values} values are more than a map may have")]
    Size { values: u32 },
    /// In version 2, a line directly after the kind line or after setting lines begins with `names`, `order` or
    /// `half`, and isn't a setting line that is allowed there.
    #[error("the line is no setting that may stand here")]
    Setting,
    /// A line of a map or a list has a byte other than `+`, `-` and `0` in its words.
    #[error("a body line has a byte that is no sign")]
    Sign,
    /// A member has more or fewer signs than there are elements.
    #[error("a member has not as many signs as there are elements")]
    Length,
    /// A word of a wiring's line isn't two plain numbers of at most three digits with a `-` between them.
    #[error("a word of a wiring is no block")]
    Block,
    /// A line of points hasn't exactly three signed numbers of absolute value at most [`om_signs::MAX_COORDINATE`].
    #[error("a line of points has not exactly three numbers in range")]
    Number,
    /// The line exceeds the number of values of the map, one point for each element, [`om_signs::MAX_BLOCKS`]
    /// blocks, or [`om_signs::MAX_MEMBERS`] distinct members. In a verdict, it exceeds [`om_signs::MAX_ELEMENTS`]
    /// vectors in one place, or one weight for each triple of that many elements.
    #[error("the line goes past the greatest size of the body")]
    Many,
    /// The line `end` comes before the map has all its values, or before there is a point for each element.
    #[error("`end` comes before the body is complete")]
    Few,
    /// A line with words follows the line `end`.
    #[error("a line with words follows `end`")]
    After,
    /// In a claim, the line after the document isn't the first line of a verdict. No document has this code.
    #[error("the line after the document is no verdict")]
    Claim,
    /// In a claim, a line of the verdict has none of the forms that are allowed there. No document has this code.
    #[error("the line has no form that a verdict has here")]
    Entry,
    /// The input ends before the line `end`.
    #[error("the input ends before its last line")]
    Missing,
}
