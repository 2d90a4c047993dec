//! The members of a list that the extensions of one chirotope reach.

ghost use Rattle.std.specs.Prelude.{◌≡◌, ◌<◌, ◌+◌, IfOk};
ghost use Rattle.om_levels.specs.Steps.{IsReaching};

use super::family::Family;
use super::lookup::{Lookup, Lookups};
use super::table::Table;
use om_chirotope::Chirotope;
use om_localize::{Signature, extensions};
use om_parallel::map_parts_by_cost;
use om_signs::{List, MAX_ELEMENTS, MAX_LINES, NoMemory};
use std::alloc::Global;
use std::thread::Threads;

/// What the extensions of a chirotope reach.
#[derive(Drop)]
pub(crate) enum Reaching {
    /// All that are tried are found at these places.
    Places(List<usize>),
    /// The extension with this signature isn't found.
    Missing(Signature),
    /// There are too many signatures.
    TooMany,
}

/// The time that it takes to look up an extension, in nanoseconds.
const LOOKUP: u64 = 20_000;

/// The places of the members that the extensions of a chirotope reach, of those signatures that the family tries. The
/// extensions are looked up on several threads, and the first in the order of the signatures that isn't found is told.
///
/// [`NoMemory`] comes only if memory runs out.
pub(crate) fn reached_by<R: Threads + Sync>(
    rt: &R,
    alloc: Global,
    family: Family,
    chi: &Chirotope,
    table: &Table,
) -> Result<Reaching, NoMemory>
    requires rank { chi.now.rank ≡ 3 }
    requires room { chi.now.elements < MAX_ELEMENTS }
    requires elements { table.now.elements ≡ chi.now.elements + 1 }
    ensures { IfOk result (IsReaching family chi.now table.now.maps) }
{
    let listing = match extensions(rt, alloc, chi, MAX_LINES) {
        Ok(listing) => listing,
        Err(error) => return Err(error.memory_alone()),
    };
    if listing.more {
        return Ok(Reaching::TooMany);
    }
    let lines = listing.lines.as_slice();
    let lookups = Lookups {
        alloc,
        family,
        chi,
        lines,
        table,
    };
    let found = map_parts_by_cost(rt, alloc, &lookups, lines.len() as u64, LOOKUP)?;
    let mut places = List::new(alloc);
    for (i, lookup) in found.iter().enumerate() {
        match (*lookup)? {
            Lookup::NotTried => continue,
            Lookup::At(place) => places.push(place)?,
            Lookup::Nowhere => return Ok(Reaching::Missing(lines[i])),
        }
    }
    Ok(Reaching::Places(places))
}
