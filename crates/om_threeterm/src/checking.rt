//! The three-term test as a test for chirotopes.

ghost use Rattle.std.specs.Prelude.{ℕ, ◌≡◌, ◌≤◌, ◌↔◌, length, IsTrue, IsOk, IfOk, IfErr, IfNone, IfSome};
ghost use Rattle.om_subsets.specs.Subsets.{choose};
ghost use Rattle.om_subsets.specs.Members.{Chosen};
ghost use Rattle.om_chirotope.specs.Map.{map_of};
ghost use Rattle.om_chirotope.specs.Chirotope.{IsChirotope, IsAllZero};
ghost use Rattle.om_chirotope.specs.ThreeTerm.{MeetsThreeTermTest, HasExchange};
ghost use Rattle.om_threeterm.specs.Violations.{IsFirstUnexchanged, IsFirstUnbalanced};

use super::bad_three::BadThree;
use super::exchanges::first_unexchanged;
use super::relations::first_unbalanced;
use super::three_refused::ThreeRefused;
use om_chirotope::{Chirotope, WholeMap};
use om_signs::{MAX_ELEMENTS, RawMap, Sign};
use std::thread::Threads;

/// The chirotope with this map, if it passes the three-term test, which is equivalent to the axioms. Otherwise the
/// map is returned with the first part of the test that fails. [`AllZero`](ThreeRefused::AllZero) comes exactly if
/// all values are 0. Then comes [`NoExchange`](ThreeRefused::NoExchange) with the first violated exchange. Last
/// comes [`ThreeTerm`](ThreeRefused::ThreeTerm) with the first violated relation, if bases have exchange.
///
/// There are from 1 to [`MAX_ELEMENTS`] elements, the rank is at most their number, and each increasing list of as
/// many elements as the rank has a sign. The call allocates no memory, and needs up to 350 KB of stack. Whether
/// bases have exchange, and whether the relations hold, is found by fast tests on the calling thread. The first
/// violated exchange or relation is then searched for, on several threads if that takes long.
///
/// Source: Björner, Las Vergnas, Sturmfels, White and Ziegler, *Oriented Matroids*, chapter 3.
pub fn check<R: Threads + Sync>(rt: &R, raw: RawMap) -> Result<Chirotope, BadThree>
    requires low { 1 ≤ raw.elements }
    requires high { raw.elements ≤ MAX_ELEMENTS }
    requires rank { raw.rank ≤ raw.elements }
    requires whole { length raw.signs ≡ choose raw.elements raw.rank }
    ensures accepted { IsOk result ↔ IsChirotope (map_of raw) }
    ensures tested { IsOk result ↔ MeetsThreeTermTest (map_of raw) }
    ensures value { IfOk result (λ c. c ≡ map_of raw) }
    ensures kept { IfErr result (λ bad. bad.raw ≡ raw) }
    ensures all_zero { IfErr result (λ bad. (bad.why ≡ ThreeRefused.AllZero) ↔ IsAllZero raw.signs) }
    ensures exchange { IfErr result (λ bad. (b c : Chosen) (e : ℕ) → bad.why ≡ ThreeRefused.NoExchange b c e
        → IsFirstUnexchanged (map_of raw) b c e) }
    ensures relation { IfErr result (λ bad. (p q : Chosen) → bad.why ≡ ThreeRefused.ThreeTerm p q
        → HasExchange (map_of raw) × IsFirstUnbalanced (map_of raw) p q) }
{
    match first_failure(rt, &WholeMap { raw: &raw }) {
        None => Ok(Chirotope::lawful(raw)),
        Some(why) => Err(BadThree { raw, why }),
    }
}

/// The first part of the three-term test that fails, or None if the map meets it.
fn first_failure<R: Threads + Sync>(rt: &R, map: &WholeMap) -> Option<ThreeRefused>
    requires { map.now.elements ≤ MAX_ELEMENTS }
    ensures none { IfNone result (MeetsThreeTermTest map.now) }
    ensures some { IfSome result (λ why. MeetsThreeTermTest map.now → ⊥) }
    ensures all_zero { IfSome result (λ why. (why ≡ ThreeRefused.AllZero) ↔ IsAllZero map.now.signs) }
    ensures exchange { IfSome result (λ why. (b c : Chosen) (e : ℕ) → why ≡ ThreeRefused.NoExchange b c e
        → IsFirstUnexchanged map.now b c e) }
    ensures relation { IfSome result (λ why. (p q : Chosen) → why ≡ ThreeRefused.ThreeTerm p q → HasExchange map.now
        × IsFirstUnbalanced map.now p q) }
{
    if is_all_zero(map.raw.signs.as_slice()) {
        return Some(ThreeRefused::AllZero);
    }
    if let Some((b, c, e)) = first_unexchanged(rt, map) {
        return Some(ThreeRefused::NoExchange { b, c, e });
    }
    match first_unbalanced(rt, map) {
        None => None,
        Some((p, q)) => Some(ThreeRefused::ThreeTerm { p, q }),
    }
}

/// Whether every sign is 0.
fn is_all_zero(signs: &[Sign]) -> bool
    ensures { IsTrue result ↔ IsAllZero signs.now }
{
    signs.iter().all(|sign| *sign == Sign::Zero)
}
