use super::signed_set::SignedSet;

/// An oriented matroid given by its cocircuits: its covectors are the zero vector and the compositions of members.
///
/// Source: Björner, Las Vergnas, Sturmfels, White and Ziegler, *Oriented Matroids*, chapter 3.
#[derive(Drop)]
pub struct Cocircuits(pub SignedSet);
