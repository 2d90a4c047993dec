//! The test whether a map is a chirotope.

ghost use Rattle.std.specs.Prelude.{◌≡◌, ◌<◌, ◌≤◌, ◌^◌, ◌↔◌, length, IsTrue, IsOk, IfOk, IfErr};
ghost use Rattle.om_subsets.specs.Subsets.{choose};
ghost use Rattle.om_subsets.specs.Members.{Chosen};
ghost use Rattle.om_chirotope.specs.Map.{map_of};
ghost use Rattle.om_chirotope.specs.Chirotope.{IsChirotope, IsAllZero, IsFirstViolated};

use super::bad_map::BadMap;
use super::chirotope::Chirotope;
use super::map_refused::MapRefused;
use super::scan::violated_on_threads;
use om_signs::{MAX_ELEMENTS, RawMap, Sign};
use std::thread::Threads;

/// The chirotope with this map, if it satisfies the axioms. Otherwise the map is returned with the reason: `AllZero`
/// exactly if all values are 0, and else `Relation` with the first violated pair.
///
/// There are from 1 to [`MAX_ELEMENTS`] elements, the rank is at most their number, and each increasing list of as
/// many elements as the rank has a sign. The call allocates no memory: its tables need up to 470 KB of stack.
///
/// Source: Björner, Las Vergnas, Sturmfels, White and Ziegler, *Oriented Matroids*, chapter 3.
pub fn check<R: Threads + Sync>(rt: &R, raw: RawMap) -> Result<Chirotope, BadMap>
    requires low { 1 ≤ raw.elements }
    requires high { raw.elements ≤ MAX_ELEMENTS }
    requires rank { raw.rank ≤ raw.elements }
    requires whole { length raw.signs ≡ choose raw.elements raw.rank }
    ensures accepted { IsOk result ↔ IsChirotope (map_of raw) }
    ensures value { IfOk result (λ c. c ≡ map_of raw) }
    ensures kept { IfErr result (λ bad. bad.raw ≡ raw) }
    ensures all_zero { IfErr result (λ bad. (bad.why ≡ MapRefused.AllZero) ↔ IsAllZero raw.signs) }
    ensures relation { IfErr result (λ bad. (s a : Chosen) → bad.why ≡ MapRefused.Relation s a
        → IsFirstViolated (map_of raw) s a) }
{
    if is_all_zero(raw.signs.as_slice()) {
        return Err(BadMap {
            raw,
            why: MapRefused::AllZero,
        });
    }
    match violated_on_threads(rt, &raw) {
        None => Ok(Chirotope::lawful(raw)),
        Some((s, a)) => Err(BadMap {
            raw,
            why: MapRefused::Relation { s, a },
        }),
    }
}

/// Whether every sign is 0.
fn is_all_zero(signs: &[Sign]) -> bool
    ensures { IsTrue result ↔ IsAllZero signs.now }
{
    signs.iter().all(|sign| *sign == Sign::Zero)
}
