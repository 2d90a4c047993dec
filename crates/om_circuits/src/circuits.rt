use super::signed_set::SignedSet;

/// An oriented matroid given by its circuits: its covectors are the sign vectors that are orthogonal to every
/// member.
///
/// Source: Björner, Las Vergnas, Sturmfels, White and Ziegler, *Oriented Matroids*, chapter 3.
#[derive(Drop)]
pub struct Circuits(pub SignedSet);
