//! The limits of the workbench. Each number is defined here alone, and the code and the contracts of all crates use
//! it by its name. What follows from a limit, such as the length of a table, is defined where it is used. A proof
//! may compute with the number.

/// The greatest number of bytes of an input.
pub const MAX_INPUT: usize = 1_048_576;

/// The greatest number of elements of a document; the least is 1.
pub const MAX_ELEMENTS: u8 = 20;

/// The greatest number of places of a sign vector, and of elements from which a subset is taken. It is one more
/// than [`MAX_ELEMENTS`], for an element at infinity.
pub const MAX_PLACES: u8 = 21;

/// The greatest number of distinct members of a list of sign vectors, read or made.
pub const MAX_MEMBERS: usize = 4_096;

/// The greatest number of bytes of an element's name; the least is 1.
pub const MAX_NAME: usize = 16;

/// The greatest number of blocks of a wiring diagram.
pub const MAX_BLOCKS: usize = 1_024;

/// The greatest absolute value of a coordinate of a vector, 2 to the power 40.
pub const MAX_COORDINATE: i64 = 1_099_511_627_776;

/// The greatest multiplicity of a statement in a certificate, 2 to the power 63; the least is 1.
pub const MAX_MULTIPLICITY: u64 = 9_223_372_036_854_775_808;

/// The greatest absolute value of a weight, 2 to the power 100.
pub const MAX_WEIGHT: i128 = 1_267_650_600_228_229_401_496_703_205_376;

/// The greatest number of entries of a certificate.
pub const MAX_ENTRIES: usize = 100_000;

/// The greatest number of values of the map of a document, and of a chirotope to which or through which a list is
/// converted. It is the number of values in rank 8 on 16 elements.
pub const MAX_VALUES: u32 = 12_870;

/// The least number of vectors that are drawn from a number.
pub const MIN_DRAWN: u8 = 3;

/// The greatest number of vectors that are drawn from a number; the least is [`MIN_DRAWN`].
pub const MAX_DRAWN: u8 = 16;

/// The greatest number of digits of a plain number.
pub const MAX_PLAIN_DIGITS: usize = 6;

/// The greatest plain number, which has [`MAX_PLAIN_DIGITS`] digits.
pub const MAX_PLAIN: u32 = 999_999;

/// The greatest number of digits of a position in the text of a block.
pub const MAX_POSITION_DIGITS: usize = 3;

/// The greatest position in the text of a block, which has [`MAX_POSITION_DIGITS`] digits.
pub const MAX_POSITION: u16 = 999;

/// The greatest number of bytes that a reader of documents or claims takes, so that it can number their lines.
pub const MAX_READ: usize = 4_294_967_294;

/// The greatest number of rows of a tableau, and of places of a row: one for each triple of 20 elements, and one
/// more.
pub const MAX_ROWS: u16 = 1_141;

/// The greatest number of a row that a claim may name.
pub const MAX_ROW_NAMED: u16 = 65_535;

/// The greatest number of columns of a tableau.
pub const MAX_COLUMNS: usize = 200_000;

/// The greatest number of pivots of a run of a tableau; the least is 1.
pub const MAX_PIVOTS: u32 = 1_000_000;

/// The greatest box of a search for vectors, which bounds the absolute values of coordinates; the least is 1.
pub const MAX_BOX: u16 = 1_000;

/// The greatest number of steps of a search for vectors; the least is 1.
pub const MAX_STEPS: u64 = 1_000_000_000;

/// The greatest number of lines of a listing of extensions; the least is 1.
pub const MAX_LINES: u64 = 1_000_000;
