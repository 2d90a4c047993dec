//! Growing lists of chirotopes of rank 3.

ghost use Rattle.std.specs.Prelude.{◌≡◌, ◌≤◌, ◌<◌, ◌∷◌, [], ◌++◌, length, All, IfOk, OnOk, OnErr};
ghost use Rattle.om_levels.specs.Levels.{IsChirotopeOfRank3, IsMemberAt, IsRowOf, row_size};

use super::packing::{bytes_for, push_packed, unpack};
use om_chirotope::Chirotope;
use om_signs::{MAX_ELEMENTS, NoMemory, RawMap};
use om_subsets::Subset;
use std::alloc::Global;
use std::marker::Model;

/// The rank of the members.
const RANK: u8 = 3;

/// A growing list of chirotopes of rank 3 on the same elements, from 3 to [`MAX_ELEMENTS`] many. Contracts see the
/// number of elements and the list of the maps.
///
/// A sign takes two bits, and each member begins with a byte of its own. So a member takes 21 bytes on nine elements,
/// and 30 bytes on ten.
#[derive(Drop)]
pub struct Level {
    elements: u8,
    count: usize,
    bytes: Vec<u8>,
}

impl Model for Level {
    ghost use Rattle.om_levels.specs.Levels.{Members, row_maps, AreRows};

    ghost Value = { Members };

    ghost view = { λ l. record { elements = l.elements; maps = row_maps l.elements l.count l.bytes.items } };

    ghost invariant = { λ l. AreRows l.elements l.count l.bytes.items };
}

impl Level {
    /// The empty list, for chirotopes on so many elements. It allocates no memory, and later calls allocate from
    /// `alloc`.
    pub fn new(alloc: Global, elements: u8) -> Level
        requires low { 3 ≤ elements }
        requires high { elements ≤ MAX_ELEMENTS }
        ensures elements { result.elements ≡ elements }
        ensures maps { result.maps ≡ [] }
    {
        Level {
            elements,
            count: 0,
            bytes: Vec::new(alloc),
        }
    }

    /// The number of elements of each member.
    pub fn elements(&self) -> u8
        ensures value { result ≡ self.now.elements }
        ensures low { 3 ≤ result }
        ensures high { result ≤ MAX_ELEMENTS }
        ensures members { All (IsChirotopeOfRank3 self.now.elements) self.now.maps }
    {
        self.elements
    }

    /// The number of members.
    pub fn len(&self) -> usize
        ensures { result ≡ length self.now.maps }
    {
        self.count
    }

    /// Adds a chirotope at the end.
    ///
    /// [`NoMemory`] comes only if memory runs out, and the list is then unchanged.
    pub fn push(&mut self, chi: &Chirotope) -> Result<(), NoMemory>
        requires rank { chi.now.rank ≡ 3 }
        requires elements { chi.now.elements ≡ self.old.elements }
        ensures elements { self.new.elements ≡ self.old.elements }
        ensures ok { OnOk result (self.new.maps ≡ self.old.maps ++ chi.now ∷ []) }
        ensures err { OnErr result (self.new.maps ≡ self.old.maps) }
    {
        prove!(chi.elements() == self.elements);
        push_packed(&mut self.bytes, chi.signs())?;
        self.count += 1;
        Ok(())
    }

    /// The member at a place, counted from 0. That it satisfies the axioms isn't tested. Memory for its signs comes
    /// from `alloc`.
    ///
    /// [`NoMemory`] comes only if memory runs out.
    pub fn get(&self, alloc: Global, place: usize) -> Result<Chirotope, NoMemory>
        requires { place < length self.now.maps }
        ensures value { IfOk result (IsMemberAt self.now.maps place) }
        ensures kind { IfOk result (IsChirotopeOfRank3 self.now.elements) }
    {
        let from = place * row_size(self.elements);
        let count = Subset::choose(self.elements, RANK) as usize;
        let signs = unpack(alloc, self.bytes.as_slice(), from, count)?;
        Ok(Chirotope::lawful(RawMap {
            rank: RANK,
            elements: self.elements,
            signs,
        }))
    }

    /// The bytes of the member at a place, counted from 0. There are none behind the last member.
    pub(crate) fn row(&self, place: usize) -> &[u8]
        ensures { IsRowOf self.now place result.now }
    {
        if place >= self.count {
            return &[];
        }
        let size = row_size(self.elements);
        &self.bytes[place * size..place * size + size]
    }
}

/// The number of bytes of a member on so many elements.
fn row_size(elements: u8) -> usize
    requires { elements ≤ MAX_ELEMENTS }
    ensures { result ≡ row_size elements }
{
    bytes_for(Subset::choose(elements, RANK) as usize)
}
