/// A whole number on the bracket of three elements. In valid evidence a < b < c, each from 1 to the number of
/// elements, and the absolute value of the number is at most [`MAX_WEIGHT`](om_signs::MAX_WEIGHT).
///
/// Source: Bokowski and Richter-Gebert, *On the finding of final polynomials*, 1990.
#[derive(Clone, Copy, Debug, PartialEq, Eq)]
pub struct Weight {
    /// The first element.
    pub a: u8,
    /// The second element.
    pub b: u8,
    /// The third element.
    pub c: u8,
    /// The number.
    pub value: i128,
}
