use super::body::Body;
use super::name::Name;
use om_signs::List;

/// A document of an oriented matroid on the elements 1 to `elements`, whether or not it satisfies any axiom.
#[derive(Drop)]
pub struct Document {
    /// The number of elements, from 1 to [`om_signs::MAX_ELEMENTS`].
    pub elements: u8,
    /// What comes after the kind line and the setting lines.
    pub body: Body,
    /// The names of the elements 1, 2, and so on, no two of them equal, or no names at all.
    pub names: List<Name>,
}
