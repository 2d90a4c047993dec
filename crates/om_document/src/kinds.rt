/// An axiom system that an oriented matroid can be converted to, each with its kind of document.
#[derive(Clone, Copy, Debug, PartialEq, Eq)]
pub enum Kind {
    /// The signs of its bases.
    Chirotope,
    /// Its signed circuits.
    Circuits,
    /// Its signed cocircuits.
    Cocircuits,
    /// Its covectors.
    Covectors,
}
