use om_document::Code;
use om_grassmann::Statement;
use om_signs::SignVec;
use om_subsets::Subset;

/// A field of a line.
#[derive(Clone, Copy)]
pub enum Field {
    /// A number of 8 bits: an element, a rank or a number of elements.
    Small(u8),
    /// A number of 32 bits.
    Number(u32),
    /// A number of 128 bits.
    Large(u128),
    /// The elements of a subset.
    Set(Subset),
    /// The signs of a sign vector.
    Signs(SignVec),
    /// What is wrong with a line, with a number if the code has one.
    Code(Code),
    /// The five elements and the two terms of a statement.
    Statement(Statement),
}
