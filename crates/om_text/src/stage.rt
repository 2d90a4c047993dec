/// Which setting lines are still allowed, before the body lines of a document.
#[derive(Clone, Copy)]
pub enum Stage {
    /// Any: the last line was the kind line of version 2.
    Names,
    /// `order` or `half`: the last line was a `names` line.
    Choice,
    /// None, and a line that begins as a setting line does is at fault: the last line was an `order` or `half`
    /// line.
    Full,
    /// None, and every line but the line `end` is a body line: the document is in version 1, or has a body line.
    Body,
}
