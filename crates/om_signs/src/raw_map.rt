use super::list::List;
use super::sign::Sign;

/// A map of rank `rank` on the elements 1 to `elements`, which need not meet any axiom. It has a sign for each
/// increasing list of `rank` elements, in lexicographic order of the lists.
///
/// Source: Björner, Las Vergnas, Sturmfels, White and Ziegler, Oriented Matroids, chapter 3.
#[derive(Drop)]
pub struct RawMap {
    /// The rank, from 0 to `elements`.
    pub rank: u8,
    /// The number of elements, from 1 to [`MAX_PLACES`](crate::MAX_PLACES); a chirotope has at most
    /// [`MAX_ELEMENTS`](crate::MAX_ELEMENTS).
    pub elements: u8,
    /// The signs of the increasing lists, in lexicographic order of the lists.
    pub signs: List<Sign>,
}
