/// Which numbers are allowed at a place of a line.
#[derive(Clone, Copy)]
pub enum Range {
    /// Decimal digits, for a number from the first to the second, both included.
    Between(u64, u64),
    /// Decimal digits, with or without a minus sign before them, for a number of absolute value up to this one.
    UpToSize(u128),
}
