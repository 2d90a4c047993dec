/// The kinds of documents that the first word of a kind line can name.
#[derive(Clone, Copy)]
pub enum DocumentKind {
    Chirotope,
    Circuits,
    Cocircuits,
    Covectors,
    Wiring,
    Points,
}
