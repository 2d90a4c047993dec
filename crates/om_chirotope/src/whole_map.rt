//! A map that has a sign for each set, and numbers within their limits.

use om_signs::RawMap;
use std::marker::Model;

/// A map with a sign for each increasing list of as many elements as the rank, lent by a [`RawMap`]. There are from 1
/// to `MAX_PLACES` elements, and the rank is at most their number. The map need not satisfy the axioms of a chirotope.
///
/// Contracts see its rank, its number of elements and its signs in lexicographic order.
///
/// Source: Björner, Las Vergnas, Sturmfels, White and Ziegler, *Oriented Matroids*, chapter 3.
#[derive(Drop)]
pub struct WholeMap<'a> {
    /// The rank, the number of elements and the signs.
    pub raw: &'a RawMap,
}

impl<'a> Model for WholeMap<'a> {
    ghost use Rattle.om_chirotope.specs.Map.{SignMap, map_of, IsWholeMap};

    ghost Value = { SignMap };

    ghost view = { λ w. map_of w.raw.now };

    ghost invariant = { λ w. IsWholeMap (map_of w.raw.now) };
}
