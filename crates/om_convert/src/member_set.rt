ghost use Rattle.std.specs.Prelude.{◌≡◌, ◌<◌, ◌≤◌, ◌↔◌, [], length, IsTrue, IfOk, IfErr, OnOk, slice_get, Some};
ghost use Rattle.std.specs.Prelude.{Err};
ghost use Rattle.std.specs.List.{Contains};
ghost use Rattle.om_members.specs.Listings.{HaveLength, AreDistinct};
ghost use Rattle.om_convert.specs.Gathering.{IsMemberSet, HaveTheSame, IsOldOrAdded, IsExtendedBy, IsNonzeroUpToSign};
ghost use Rattle.om_convert.specs.Gathering.{IsComposedWith};
ghost use Rattle.om_convert.specs.Limits.{IsCause};

use super::convert_error::ConvertError;
use indexmap::IndexSet;
use om_members::are_same;
use om_signs::{List, MAX_MEMBERS, NoMemory, SignVec};
use std::alloc::Global;
use std::marker::Model;

/// Distinct sign vectors in the order in which they were added, at most [`MAX_MEMBERS`]. Contracts see the list of
/// them.
#[derive(Drop)]
pub struct MemberSet {
    set: IndexSet<SignVec>,
}

impl Model for MemberSet {
    ghost use Rattle.std.specs.Prelude.{List};
    ghost use Rattle.om_signs.specs.declared.sign.Sign.{Sign};
    ghost use Rattle.om_convert.specs.Gathering.{IsMemberSet};

    ghost Value = { List (List Sign) };

    ghost view = { λ s. s.set.keys };

    ghost invariant = { λ s. IsMemberSet s.set.keys };
}

impl MemberSet {
    /// The empty set. It allocates no memory, and later calls allocate from `alloc`.
    pub fn new(alloc: Global) -> MemberSet
        ensures { result ≡ [] }
    {
        MemberSet {
            set: IndexSet::new(alloc),
        }
    }

    /// The number of members.
    pub fn len(&self) -> usize
        ensures value { result ≡ length self.now }
        ensures lawful { IsMemberSet self.now }
    {
        self.set.len()
    }

    /// The member at the index `i`, counted from 0. `i` is below the number of members.
    pub fn at(&self, i: usize) -> SignVec
        requires { i < length self.now }
        ensures { slice_get self.now i ≡ Some result }
    {
        self.set.as_slice()[i]
    }

    /// The members, in the order in which they were added.
    pub fn as_slice(&self) -> &[SignVec]
        ensures { result.now ≡ self.now }
    {
        self.set.as_slice()
    }

    /// Whether there are [`MAX_MEMBERS`] members.
    pub fn is_full(&self) -> bool
        ensures { IsTrue result ↔ (MAX_MEMBERS ≤ length self.now) }
    {
        self.set.len() >= MAX_MEMBERS
    }

    /// Whether a vector is a member.
    pub fn contains(&self, x: SignVec) -> bool
        ensures { IsTrue result ↔ Contains self.now x }
    {
        self.set.contains(&x)
    }

    /// Whether the members are those of a list of distinct vectors, in any order.
    pub fn is_set_of(&self, list: &[SignVec]) -> bool
        requires { AreDistinct list.now }
        ensures { IsTrue result ↔ HaveTheSame self.now list.now }
    {
        if self.len() != list.len() {
            return false;
        }
        for x in list {
            if !self.contains(*x) {
                return false;
            }
        }
        true
    }

    /// Adds a vector at the end, unless it is a member.
    ///
    /// [`ConvertError::TooMany`] comes exactly if it is no member and the set is full, and gives the number of
    /// members. [`ConvertError::Memory`] comes only if the set isn't full, and memory runs out.
    pub fn insert(&mut self, x: SignVec) -> Result<(), ConvertError>
        ensures added { OnOk result (IsExtendedBy (λ X. X ≡ x) self.old self.new) }
        ensures many { IfErr result (IsCause (IsOldOrAdded self.old (λ X. X ≡ x))) }
        ensures memory_only_with_room { result ≡ Err ConvertError.Memory → length self.old < MAX_MEMBERS }
    {
        if self.is_full() && !self.set.contains(&x) {
            return Err(ConvertError::TooMany {
                limit: MAX_MEMBERS as u32,
            });
        }
        match self.set.insert(x) {
            Ok(_) => Ok(()),
            Err(_) => Err(ConvertError::Memory),
        }
    }

    /// Adds a nonzero vector and its negative at the end, unless they are members. A zero vector changes nothing.
    ///
    /// The errors are those of [`MemberSet::insert`].
    pub fn insert_signed(&mut self, v: SignVec) -> Result<(), ConvertError>
        ensures added { OnOk result (IsExtendedBy (IsNonzeroUpToSign v) self.old self.new) }
        ensures many { IfErr result (IsCause (IsOldOrAdded self.old (IsNonzeroUpToSign v))) }
    {
        if v.support() != 0 {
            self.insert(v)?;
            self.insert(v.neg())?;
        }
        Ok(())
    }

    /// Adds a vector at the end, unless it is a member. It is first compared with two members, and then looked up,
    /// since most are members, and to find one takes less time than an insertion that changes nothing.
    ///
    /// The errors are those of [`MemberSet::insert`].
    fn insert_beside(
        &mut self,
        x: SignVec,
        first: SignVec,
        second: SignVec,
    ) -> Result<(), ConvertError>
        requires first { Contains self.old first }
        requires second { Contains self.old second }
        ensures added { OnOk result (IsExtendedBy (λ X. X ≡ x) self.old self.new) }
        ensures many { IfErr result (IsCause (IsOldOrAdded self.old (λ X. X ≡ x))) }
    {
        if are_same(x, first) {
            return Ok(());
        }
        if are_same(x, second) {
            return Ok(());
        }
        if self.contains(x) {
            return Ok(());
        }
        self.insert(x)
    }

    /// Appends the compositions of the member `x` with each vector of `ys`, unless they are members. All vectors
    /// have the same length. Each composition is first compared with the last two. If a vector and its negative are
    /// neighbours in `ys`, the next composition is most often one of these.
    ///
    /// The errors are those of [`MemberSet::insert`].
    pub fn insert_composed(&mut self, x: SignVec, ys: &[SignVec]) -> Result<(), ConvertError>
        requires member { Contains self.old x }
        requires lengths { HaveLength (length x) ys.now }
        ensures added { OnOk result (IsExtendedBy (IsComposedWith x ys.now) self.old self.new) }
        ensures many { IfErr result (IsCause (IsOldOrAdded self.old (IsComposedWith x ys.now))) }
    {
        let mut before = x;
        let mut last = x;
        for y in ys {
            let composed = x.compose(*y);
            self.insert_beside(composed, before, last)?;
            before = last;
            last = composed;
        }
        Ok(())
    }

    /// The list of the members, in the order in which they were added. Its memory comes from `alloc`.
    ///
    /// [`NoMemory`] comes only if memory runs out.
    pub fn into_list(self, alloc: Global) -> Result<List<SignVec>, NoMemory>
        ensures value { IfOk result (λ l. l ≡ self) }
        ensures lawful { IsMemberSet self }
    {
        let mut list = List::new(alloc);
        for x in self.set.as_slice() {
            list.push(*x)?;
        }
        Ok(list)
    }
}
