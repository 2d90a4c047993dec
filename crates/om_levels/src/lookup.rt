//! The search for the extensions of a chirotope among the members of a table.

ghost use Rattle.std.specs.Prelude.{◌≡◌, ◌<◌, ◌+◌, IfOk, IfSome};
ghost use Rattle.om_localize.specs.Extensions.{IsSignature};
ghost use Rattle.om_covers.specs.Growing.{grown};
ghost use Rattle.om_levels.specs.Levels.{IsIsomorphicTo};

use super::family::Family;
use super::table::Table;
use om_chirotope::Chirotope;
use om_covers::extension;
use om_localize::Signature;
use om_parallel::Part;
use om_signs::{MAX_ELEMENTS, NoMemory};
use std::alloc::Global;
use std::marker::Model;

/// What is found about the extension with one signature.
#[derive(Clone, Copy)]
pub(crate) enum Lookup {
    /// The family doesn't try it.
    NotTried,
    /// It is isomorphic to the member at this place.
    At(usize),
    /// It is tried, and it isn't found.
    Nowhere,
}

/// The signatures of a chirotope, numbered from 0. The item of a number says what is found about the extension with
/// this signature.
#[derive(Drop)]
pub(crate) struct Lookups<'a> {
    pub(crate) alloc: Global,
    pub(crate) family: Family,
    pub(crate) chi: &'a Chirotope,
    pub(crate) lines: &'a [Signature],
    pub(crate) table: &'a Table<'a>,
}

impl<'a> Model for Lookups<'a> {
    ghost use Rattle.om_levels.specs.Steps.{Search, IsSearch};

    ghost Value = { Search };

    ghost view = { λ s. record { family = s.family; map = s.chi.now; lines = s.lines.now; members = s.table.now } };

    ghost invariant = { λ s. IsSearch (record {
      family = s.family;
      map = s.chi.now;
      lines = s.lines.now;
      members = s.table.now;
    }) };
}

impl Part for Lookups<'_> {
    ghost use Rattle.std.specs.Prelude.{◌<◌, [], length, slice_index_or, IfOk};
    ghost use Rattle.om_levels.specs.Families.{IsHalfOf};
    ghost use Rattle.om_levels.specs.Steps.{IsLookup};

    type Out = Result<Lookup, NoMemory>;

    ghost gives = { λ s k found. k < length s.lines → IfOk found
        (IsLookup (IsHalfOf s.family s.map.elements) s.map s.members.maps (slice_index_or s.lines k [])) };

    fn part(&self, k: u64) -> Result<Lookup, NoMemory> {
        if k >= self.lines.len() as u64 {
            return Ok(Lookup::NotTried);
        }
        let signature = self.lines[k as usize];
        if !self.family.tries(self.chi.elements(), signature) {
            return Ok(Lookup::NotTried);
        }
        match place_of_extension(self.alloc, self.chi, signature, self.table)? {
            Some(place) => Ok(Lookup::At(place)),
            None => Ok(Lookup::Nowhere),
        }
    }
}

/// The place of a member to which the extension with this signature is isomorphic, or None if it isn't found.
///
/// [`NoMemory`] comes only if memory runs out.
fn place_of_extension(
    alloc: Global,
    chi: &Chirotope,
    signature: Signature,
    table: &Table,
) -> Result<Option<usize>, NoMemory>
    requires rank { chi.now.rank ≡ 3 }
    requires room { chi.now.elements < MAX_ELEMENTS }
    requires elements { table.now.elements ≡ chi.now.elements + 1 }
    requires signature { IsSignature chi.now signature }
    ensures { IfOk result (λ found. IfSome found (IsIsomorphicTo table.now.maps (grown chi.now signature))) }
{
    let extended = extension(alloc, chi, signature)?;
    table.find(alloc, &extended)
}
