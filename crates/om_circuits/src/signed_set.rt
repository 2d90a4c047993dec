ghost use Rattle.std.specs.Prelude.{◌≡◌, ◌≤◌, length};
ghost use Rattle.om_circuits.specs.Axioms.{MeetsCircuitAxioms};
ghost use Rattle.om_members.specs.Listings.{HaveLength, AreDistinct};
ghost use Rattle.om_circuits.specs.SignedSets.{IsSignedSet};

use om_signs::{List, MAX_ELEMENTS, MAX_MEMBERS, SignVec};
use std::marker::Model;

/// A finite set of sign vectors that satisfies the axioms of circuits, which are also those of cocircuits. Its
/// members are distinct, in the order in which they were listed.
///
/// Source: Björner, Las Vergnas, Sturmfels, White and Ziegler, *Oriented Matroids*, chapter 3.
#[derive(Drop)]
pub struct SignedSet {
    elements: u8,
    list: List<SignVec>,
}

impl Model for SignedSet {
    ghost use Rattle.om_members.specs.Listings.{Listing};
    ghost use Rattle.om_circuits.specs.SignedSets.{IsSignedSet};

    ghost Value = { Listing };

    ghost view = { λ s. record { elements = s.elements; members = s.list } };

    ghost invariant = { λ s. IsSignedSet s.elements s.list };
}

impl SignedSet {
    /// The set of these members. They are distinct, at most [`MAX_MEMBERS`], have `elements` signs each, from 1 to
    /// [`MAX_ELEMENTS`], and satisfy the axioms. The call allocates no memory.
    pub fn lawful(elements: u8, list: List<SignVec>) -> SignedSet
        requires low { 1 ≤ elements }
        requires high { elements ≤ MAX_ELEMENTS }
        requires lengths { HaveLength elements list }
        requires distinct { AreDistinct list }
        requires few { length list ≤ MAX_MEMBERS }
        requires axioms { MeetsCircuitAxioms list }
        ensures elements { result.elements ≡ elements }
        ensures members { result.members ≡ list }
    {
        SignedSet { elements, list }
    }

    /// The number of elements; each member has as many signs.
    pub fn elements(&self) -> u8
        ensures value { result ≡ self.now.elements }
        ensures lawful { IsSignedSet self.now.elements self.now.members }
    {
        self.elements
    }

    /// The members, in the order in which they were listed.
    pub fn members(&self) -> &[SignVec]
        ensures value { result.now ≡ self.now.members }
        ensures lawful { IsSignedSet self.now.elements self.now.members }
    {
        self.list.as_slice()
    }

    /// The list of the members, in the order in which they were listed.
    pub fn into_list(self) -> List<SignVec>
        ensures value { result ≡ self.members }
        ensures lawful { IsSignedSet self.elements self.members }
    {
        self.list
    }
}
