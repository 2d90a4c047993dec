use om_signs::{Block, List, RawMap, SignVec};

/// The content of a document after its kind line and its setting lines.
///
/// The members of a list are distinct, in the order of their first places. After `half` a line has a place for its
/// member and then one for the negative.
#[derive(Drop)]
pub enum Body {
    /// The values of a map on the sets of its rank, in lexicographic order of the sets: at most
    /// [`om_signs::MAX_VALUES`].
    Chirotope(RawMap),
    /// The signed circuits.
    Circuits(List<SignVec>),
    /// The signed cocircuits.
    Cocircuits(List<SignVec>),
    /// The covectors.
    Covectors(List<SignVec>),
    /// The steps of a wiring diagram, in order: at most [`om_signs::MAX_BLOCKS`], and each position is at most 999.
    Wiring(List<Block>),
    /// The points of the elements 1, 2, and so on: three coordinates each, of absolute value at most
    /// [`om_signs::MAX_COORDINATE`].
    Points(List<[i64; 3]>),
}
