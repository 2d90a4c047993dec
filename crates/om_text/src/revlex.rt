//! Values in reverse lexicographic order.

ghost use Rattle.std.specs.Prelude.{◌≡◌, ◌≤◌, IfOk, length};
ghost use Rattle.om_signs.specs.declared.limits.TheConstants.{MAX_ELEMENTS};
ghost use Rattle.om_subsets.specs.Subsets.{choose};
ghost use Rattle.om_document.specs.Settings.{values_from_revlex};

use om_signs::{List, NoMemory, RawMap, Sign};
use om_subsets::Subset;

/// The values of a map in lexicographic order of the sets, from values in reverse lexicographic order.
pub fn values_from_revlex(map: &RawMap) -> Result<List<Sign>, NoMemory>
    requires rank { map.now.rank ≤ map.now.elements }
    requires elements { map.now.elements ≤ MAX_ELEMENTS }
    requires signs { length map.now.signs ≡ choose map.now.elements map.now.rank }
    ensures { IfOk result (λ signs. signs ≡ values_from_revlex map.now) }
{
    let mut signs = map.signs.empty_like();
    for set in Subset::all(map.rank, map.elements) {
        signs.push(map.signs.at(set.rank_revlex() as usize))?;
    }
    Ok(signs)
}
