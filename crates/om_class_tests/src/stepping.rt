//! The step from the classes on n elements to those on n + 1, and the lists that it reads.

ghost use Rattle.std.specs.Prelude.{◌≡◌, ◌≤◌, ◌<◌, IfOk};

use super::labels::CLASSES;
use om_chirotope::Chirotope;
use om_levels::{Family, Level, Table, Verdict, next_level};
use om_samples::{SampleError, chirotope_of, is_map};
use om_signs::MAX_ELEMENTS;
use std::alloc::Global;
use std::thread::Threads;

/// Whether a family has the chirotope of rank 3 that is written as a text. All that are written are simple.
fn has(family: Family, text: &str) -> bool {
    family == Family::Simple || !text.contains('0')
}

/// The list of the classes of a family on n elements, without the one that has this number.
fn list_of<R: Threads + Sync>(
    rt: &R,
    alloc: Global,
    family: Family,
    n: u8,
    left_out: Option<u8>,
) -> Result<Level, SampleError>
    requires low { 3 ≤ n }
    requires high { n ≤ MAX_ELEMENTS }
    ensures { IfOk result (λ l. l.elements ≡ n) }
{
    let mut level = Level::new(alloc, n);
    let mut number = 0u8;
    for (elements, text) in CLASSES {
        if elements == n && has(family, text) {
            if left_out != Some(number) {
                level.push(&chirotope_of(rt, alloc, 3, n, text)?)?;
            }
            number = number.saturating_add(1);
        }
    }
    Ok(level)
}

/// The verdict of the step from n elements, where a class is left out of each list.
fn verdict_of<R: Threads + Sync>(
    rt: &R,
    alloc: Global,
    family: Family,
    n: u8,
    left_out: Option<u8>,
    left_out_next: Option<u8>,
) -> Result<Verdict, SampleError>
    requires low { 3 ≤ n }
    requires high { n < MAX_ELEMENTS }
{
    let level = list_of(rt, alloc, family, n, left_out)?;
    let next = list_of(rt, alloc, family, n + 1, left_out_next)?;
    Ok(next_level(rt, alloc, family, &level, &next)?)
}

// The lists of all classes show one another complete.
#[test]
fn complete_lists(rt: HostRuntime) {
    for family in [Family::Simple, Family::Uniform] {
        for n in [3u8, 4, 5] {
            let verdict = verdict_of(&rt, rt.alloc(), family, n, None, None);
            assert!(rt; matches!(verdict, Ok(Verdict::Complete)), "after {n}");
        }
    }
}

// Where a class is missing from the next list, the step says so: some extension isn't found.
#[test]
fn class_left_out(rt: HostRuntime) {
    for (n, classes) in [(3u8, 2u8), (4, 4), (5, 17)] {
        for number in 0..classes {
            let verdict = verdict_of(&rt, rt.alloc(), Family::Simple, n, None, Some(number));
            assert!(rt;
                matches!(verdict, Ok(Verdict::Missing { .. })),
                "after {n}, without {number}"
            );
        }
    }
}

// Without the uniform class on four elements, no extension is the uniform one on five, which is the first of its list.
#[test]
fn class_unmet(rt: HostRuntime) {
    let verdict = verdict_of(&rt, rt.alloc(), Family::Simple, 4, Some(0), None);
    assert!(rt; matches!(verdict, Ok(Verdict::Unmet { member: 0 })));
}

/// Whether the member at a place has the signs of a text, and the chirotope and its negative are found there.
fn is_kept(
    alloc: Global,
    level: &Level,
    table: &Table,
    place: usize,
    text: &str,
) -> Result<bool, SampleError>
    requires { table.now.elements ≡ level.now.elements }
{
    if place >= level.len() {
        return Ok(false);
    }
    let chi = level.get(alloc, place)?;
    let negative = chi.copy()?.negate();
    let found = [
        table.find(alloc, &chi)? == Some(place),
        table.find(alloc, &negative)? == Some(place),
        is_map(&chi.into_raw(), 3, level.elements(), text),
    ];
    Ok(found == [true; 3])
}

/// Whether all classes on n elements are kept in their places.
fn are_kept<R: Threads + Sync>(rt: &R, alloc: Global, n: u8) -> Result<bool, SampleError>
    requires low { 3 ≤ n }
    requires high { n ≤ MAX_ELEMENTS }
{
    let level = list_of(rt, alloc, Family::Simple, n, None)?;
    let table = Table::of(alloc, &level)?;
    let mut place = 0usize;
    for (elements, text) in CLASSES {
        if elements == n {
            if !is_kept(alloc, &level, &table, place, text)? {
                return Ok(false);
            }
            place = place.saturating_add(1);
        }
    }
    Ok(place == level.len())
}

// A list gives back what was put into it, and its table finds it.
#[test]
fn kept_lists(rt: HostRuntime) {
    for n in [3u8, 4, 5, 6] {
        assert!(rt; are_kept(&rt, rt.alloc(), n) == Ok(true), "on {n}");
    }
}
