/// A three-term statement on an element a and four elements b, c, d, e. It compares the absolute values of two of
/// the terms [abc][ade], -[abd][ace] and [abe][acd], which have the numbers 1, 2 and 3. A strict statement says
/// that the term `small` is smaller than the term `big`, and an equation that both are equal.
///
/// The fields may be any numbers: [`super::lawful`] decides which statements the relations of a chirotope give.
/// Statements are ordered lexicographically by a, b, c, d, e, small and big.
///
/// Source: Bokowski and Richter-Gebert, *On the finding of final polynomials*, 1990.
#[derive(Clone, Copy, Debug, PartialEq, Eq)]
pub struct Statement {
    pub a: u8,
    pub b: u8,
    pub c: u8,
    pub d: u8,
    pub e: u8,
    /// The number of the term that is smaller in absolute value, or equal.
    pub small: u8,
    /// The number of the term that is greater in absolute value, or equal.
    pub big: u8,
    /// Whether the statement is strict, and not an equation.
    pub strict: bool,
}
