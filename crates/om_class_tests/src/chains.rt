//! Chains of lists: the list of least maps on four elements, and lists that aren't it.

use om_chain::{Asked, Chain, Gap, Unfit};
use om_levels::Family;
use om_samples::{SampleError, chirotope_of};
use om_signs::MAX_ELEMENTS;
use std::alloc::Global;
use std::thread::Threads;

/// Why the chirotope with the signs of a text can't be the next member of the list that a chain reads.
fn added<R: Threads + Sync>(
    rt: &R,
    alloc: Global,
    chain: &mut Chain,
    text: &str,
) -> Result<Option<Unfit>, SampleError> {
    let chi = chirotope_of(rt, alloc, 3, chain.elements(), text)?;
    Ok(chain.add(alloc, &chi)?)
}

/// Why the list that a chain has read isn't shown.
fn closed<R: Threads + Sync>(
    rt: &R,
    alloc: Global,
    chain: &mut Chain,
) -> Result<Option<Gap>, SampleError> {
    if chain.elements() >= MAX_ELEMENTS {
        return Err(SampleError::Refused);
    }
    Ok(chain.close(rt, alloc)?)
}

/// Why the last of some chirotopes on four elements can't be a member of a list of least maps behind the others.
fn refused<R: Threads + Sync>(
    rt: &R,
    alloc: Global,
    texts: &[&str],
) -> Result<Option<Unfit>, SampleError> {
    let mut chain = Chain::new(alloc, Asked::Exact, Family::Simple)?;
    let mut unfit = None;
    for text in texts {
        unfit = added(rt, alloc, &mut chain, text)?;
    }
    Ok(unfit)
}

/// Why a list of least maps on four elements isn't shown.
fn not_shown<R: Threads + Sync>(
    rt: &R,
    alloc: Global,
    texts: &[&str],
) -> Result<Option<Gap>, SampleError> {
    let mut chain = Chain::new(alloc, Asked::Exact, Family::Simple)?;
    for text in texts {
        added(rt, alloc, &mut chain, text)?;
    }
    closed(rt, alloc, &mut chain)
}

// The list with the least map of each class on four elements is shown. If it lacks one of its two members, an
// extension of the first map on three elements isn't found.
#[test]
fn least_maps(rt: HostRuntime) {
    let alloc = rt.alloc();
    let whole = not_shown(&rt, alloc, &["----", "---0"]);
    assert!(rt; matches!(whole, Ok(None)));
    for text in ["----", "---0"] {
        let gap = not_shown(&rt, alloc, &[text]);
        assert!(rt;
            matches!(gap, Ok(Some(Gap::Missing { member: 0, .. }))),
            "at {text} alone"
        );
    }
}

// A member has to come behind the last one.
#[test]
fn members_in_order(rt: HostRuntime) {
    let alloc = rt.alloc();
    for (first, second) in [("----", "----"), ("---0", "----")] {
        let unfit = refused(&rt, alloc, &[first, second]);
        assert!(rt;
            matches!(unfit, Ok(Some(Unfit::Order))),
            "at {second} behind {first}"
        );
    }
}

// A member has to be the least map of its class.
#[test]
fn members_that_are_least(rt: HostRuntime) {
    let alloc = rt.alloc();
    let unfit = refused(&rt, alloc, &["++++"]);
    assert!(rt; matches!(unfit, Ok(Some(Unfit::NotLeast))));
}
