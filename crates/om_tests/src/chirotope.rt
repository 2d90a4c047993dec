//! The values and vectors of a small chirotope, and maps that are accepted or refused.

ghost use Rattle.std.specs.Prelude.{◌≡◌, ◌≤◌, IfOk};

use super::helpers::hold;
use om_chirotope::{BadMap, Chirotope, MapRefused, check, has_exchange};
use om_samples::{SampleError, chirotope_of, is_map, map_of, vector_of};
use om_signs::{MAX_ELEMENTS, Sign};
use om_subsets::Subset;
use std::alloc::Global;
use std::thread::Threads;

/// Whether there is a chirotope with the signs and vectors computed by hand: those of 13, of (3, 1) and of (2, 2),
/// and those of 123 and of 3.
fn has_values(chi: Result<Chirotope, SampleError>) -> bool
    requires rank { IfOk chi (λ c. c.rank ≡ 2) }
    requires elements { IfOk chi (λ c. c.elements ≡ 3) }
{
    match chi {
        Ok(chi) => {
            let signs = [
                chi.at(Subset::from_mask(0b101, 3)),
                chi.value(&[3, 1]),
                chi.value(&[2, 2]),
            ];
            let vectors = [
                chi.circuit_of(Subset::from_mask(0b111, 3)),
                chi.cocircuit_of(Subset::from_mask(0b100, 3)),
            ];
            let expected = [vector_of(3, "---"), vector_of(3, "+-0")];
            (signs, vectors) == ([Sign::Minus, Sign::Plus, Sign::Zero], expected)
        }
        Err(_) => false,
    }
}

/// Whether there is a chirotope of rank 2 with three elements, and its negative, normalized, has the signs of a
/// text.
fn has_normal<E: Drop>(found: Result<Chirotope, E>, text: &str) -> bool {
    match found {
        Ok(chi) => is_map(&chi.negate().normal().into_raw(), 2, 3, text),
        Err(_) => false,
    }
}

/// Whether there is a chirotope of rank 2 with three elements, its negative has the signs of a text, and the
/// negative of its copy, normalized, those of another.
fn has_negative(found: Result<Chirotope, SampleError>, text: &str, normal: &str) -> bool {
    match found {
        Ok(chi) => {
            let copy = chi.copy();
            is_map(&chi.negate().into_raw(), 2, 3, text) & has_normal(copy, normal)
        }
        Err(_) => false,
    }
}

// the signs of 12, 13 and 23 are plus, minus and plus; the negative begins with minus, so normalizing it gives the
// first signs again
#[test]
fn values_and_negatives(rt: HostRuntime) {
    let alloc = rt.alloc();
    hold(
        &rt,
        &[
            ("values", has_values(chirotope_of(&rt, alloc, 2, 3, "+-+"))),
            (
                "negatives",
                has_negative(chirotope_of(&rt, alloc, 2, 3, "+-+"), "-+-", "+-+"),
            ),
        ],
    );
}

/// Whether a map was accepted, or refused for a reason.
fn is_answer(found: Result<Chirotope, BadMap>, refused: Option<MapRefused>) -> bool {
    match found {
        Ok(_) => refused.is_none(),
        Err(bad) => refused == Some(bad.why),
    }
}

/// Whether the text spells a map, and the check accepts it, or refuses it for a reason.
fn is_checked<R: Threads + Sync>(
    rt: &R,
    alloc: Global,
    rank: u8,
    elements: u8,
    text: &str,
    refused: Option<MapRefused>,
) -> bool
    requires low { 1 ≤ elements }
    requires high { elements ≤ MAX_ELEMENTS }
    requires part { rank ≤ elements }
{
    match map_of(alloc, rank, elements, text) {
        Ok(map) => is_answer(check(rt, map), refused),
        Err(_) => false,
    }
}

// the bases of the last are 123 and 456, so the first set is 1234, and 56 is the last of the sets of two
#[test]
fn checks(rt: HostRuntime) {
    let alloc = rt.alloc();
    let why = MapRefused::Relation {
        s: Subset::from_mask(0b1111, 6),
        a: Subset::from_mask(0b110000, 6),
    };
    hold(
        &rt,
        &[
            ("accepted", is_checked(&rt, alloc, 3, 4, "++++", None)),
            (
                "all zero",
                is_checked(&rt, alloc, 3, 4, "0000", Some(MapRefused::AllZero)),
            ),
            (
                "a relation",
                is_checked(&rt, alloc, 3, 6, "+000000000000000000+", Some(why)),
            ),
        ],
    );
}

/// Whether the text spells a map, and its bases have the exchange property or not.
fn is_exchange(alloc: Global, rank: u8, elements: u8, text: &str, expected: bool) -> bool
    requires low { 1 ≤ elements }
    requires high { elements ≤ MAX_ELEMENTS }
    requires part { rank ≤ elements }
{
    match map_of(alloc, rank, elements, text) {
        Ok(map) => has_exchange(&map) == expected,
        Err(_) => false,
    }
}

// First, no element of 456 can replace one of 123. Second, each set of three is a basis, though the signs are those
// of no chirotope. Third, there is no basis.
#[test]
fn exchanges(rt: HostRuntime) {
    let alloc = rt.alloc();
    hold(
        &rt,
        &[
            (
                "123 and 456",
                is_exchange(alloc, 3, 6, "+000000000000000000+", false),
            ),
            (
                "each set of three",
                is_exchange(alloc, 3, 6, "+++++-++++++++++++++", true),
            ),
            ("no basis", is_exchange(alloc, 3, 3, "0", true)),
        ],
    );
}
