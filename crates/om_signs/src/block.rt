/// A step of a wiring diagram: the wires at the positions `first` to `last`, counted from 1, are reversed.
///
/// Source: Goodman's wiring diagrams; Björner, Las Vergnas, Sturmfels, White and Ziegler, Oriented Matroids, chapter 6.
#[derive(Clone, Copy, Debug, PartialEq, Eq)]
pub struct Block {
    /// The first position that is reversed.
    pub first: u16,
    /// The last position that is reversed.
    pub last: u16,
}
