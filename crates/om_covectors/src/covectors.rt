ghost use Rattle.std.specs.Prelude.{◌≡◌, ◌≤◌, ◌↔◌, length, IfOk, IsTrue};
ghost use Rattle.std.specs.List.{Contains};
ghost use Rattle.om_covectors.specs.Axioms.{MeetsCovectorAxioms};
ghost use Rattle.om_members.specs.Listings.{HaveLength, AreDistinct};
ghost use Rattle.om_covectors.specs.CovectorSets.{IsCovectorSet};
ghost use Rattle.om_covectors.specs.Minimality.{IsMinimal, AreThose};

use super::minimality::with_minimal;
use om_members::is_member;
use om_signs::{List, MAX_ELEMENTS, MAX_MEMBERS, NoMemory, SignVec};
use std::marker::Model;

/// An oriented matroid given by its covectors: a finite set of sign vectors that satisfies the axioms of covectors.
/// Its members are distinct, in the order in which they were listed.
///
/// Source: Björner, Las Vergnas, Sturmfels, White and Ziegler, *Oriented Matroids*, chapter 4.
#[derive(Drop)]
pub struct Covectors {
    elements: u8,
    list: List<SignVec>,
}

impl Model for Covectors {
    ghost use Rattle.om_members.specs.Listings.{Listing};
    ghost use Rattle.om_covectors.specs.CovectorSets.{IsCovectorSet};

    ghost Value = { Listing };

    ghost view = { λ s. record { elements = s.elements; members = s.list } };

    ghost invariant = { λ s. IsCovectorSet s.elements s.list };
}

impl Covectors {
    /// The covectors of this list. Its members are distinct, at most [`MAX_MEMBERS`], have `elements` signs each,
    /// from 1 to [`MAX_ELEMENTS`], and satisfy the axioms. The call allocates no memory.
    pub fn lawful(elements: u8, list: List<SignVec>) -> Covectors
        requires low { 1 ≤ elements }
        requires high { elements ≤ MAX_ELEMENTS }
        requires lengths { HaveLength elements list }
        requires distinct { AreDistinct list }
        requires few { length list ≤ MAX_MEMBERS }
        requires axioms { MeetsCovectorAxioms list }
        ensures elements { result.elements ≡ elements }
        ensures members { result.members ≡ list }
    {
        Covectors { elements, list }
    }

    /// The number of elements; each member has as many signs.
    pub fn elements(&self) -> u8
        ensures value { result ≡ self.now.elements }
        ensures lawful { IsCovectorSet self.now.elements self.now.members }
    {
        self.elements
    }

    /// The members, in the order in which they were listed.
    pub fn members(&self) -> &[SignVec]
        ensures value { result.now ≡ self.now.members }
        ensures lawful { IsCovectorSet self.now.elements self.now.members }
    {
        self.list.as_slice()
    }

    /// Whether a sign vector is a member. The call allocates no memory.
    pub fn contains(&self, x: SignVec) -> bool
        ensures { IsTrue result ↔ Contains self.now.members x }
    {
        is_member(self.list.as_slice(), x)
    }

    /// The list of the members, in the order in which they were listed.
    pub fn into_list(self) -> List<SignVec>
        ensures value { result ≡ self.members }
        ensures lawful { IsCovectorSet self.elements self.members }
    {
        self.list
    }

    /// The nonzero members of minimal support, in the order in which they were listed. They are the cocircuits of
    /// the oriented matroid. The list has the allocator of the covectors' own list.
    ///
    /// [`NoMemory`] comes only if memory runs out.
    ///
    /// Source: Björner, Las Vergnas, Sturmfels, White and Ziegler, *Oriented Matroids*, chapters 3 and 4.
    pub fn minimal(&self) -> Result<List<SignVec>, NoMemory>
        ensures { IfOk result (AreThose (IsMinimal self.now.members) self.now.members) }
    {
        with_minimal(self.list.empty_like(), self.list.as_slice())
    }
}
