//! Extensions whose number is known.

ghost use Rattle.std.specs.Prelude.{◌≤◌};

use super::helpers::hold;
use om_chirotope::Chirotope;
use om_localize::{ExtendError, Listing, Signature, extensions};
use om_samples::{SampleError, chirotope_of};
use om_signs::{MAX_LINES, Sign};
use std::alloc::Global;
use std::thread::Threads;

/// Whether this many extensions were listed, and whether there is a further one.
fn are_listed(found: Result<Listing, ExtendError>, size: usize, more: bool) -> bool {
    match found {
        Ok(listing) => (listing.lines.len(), listing.more) == (size, more),
        Err(_) => false,
    }
}

/// Whether there is a chirotope, this many of its extensions are listed, and whether there is a further one.
fn lists<R: Threads + Sync>(
    rt: &R,
    alloc: Global,
    chi: Result<Chirotope, SampleError>,
    first: u64,
    size: usize,
    more: bool,
) -> bool
    requires low { 1 ≤ first }
    requires high { first ≤ MAX_LINES }
{
    match chi {
        Ok(chi) => are_listed(extensions(rt, alloc, &chi, first), size, more),
        Err(_) => false,
    }
}

// A chirotope whose only value is plus has an extension for each signature of three signs.
#[test]
fn extensions_of_three(rt: HostRuntime) {
    let alloc = rt.alloc();
    hold(
        &rt,
        &[
            (
                "all 27",
                lists(
                    &rt,
                    alloc,
                    chirotope_of(&rt, alloc, 3, 3, "+"),
                    27,
                    27,
                    false,
                ),
            ),
            (
                "26, and a further one",
                lists(
                    &rt,
                    alloc,
                    chirotope_of(&rt, alloc, 3, 3, "+"),
                    26,
                    26,
                    true,
                ),
            ),
        ],
    );
}

#[test]
fn signs_in_a_row(rt: HostRuntime) {
    let signature = Signature::empty().with(Sign::Plus).with(Sign::Zero);
    let signs = [signature.at(0), signature.at(1)];
    assert!(rt; (signature.len(), signs) == (2, [Sign::Plus, Sign::Zero]));
}
