//! A dual computed by hand. Those of lists, and one that is too large, are rows of `dual`.

use super::helpers::is_chirotope;
use om_chirotope::Chirotope;
use om_dual::dual;
use om_samples::{SampleError, chirotope_of};
use std::alloc::Global;

/// Whether the dual of a chirotope has rank 2, four elements and the signs of a text.
fn has_dual(alloc: Global, found: Result<Chirotope, SampleError>, text: &str) -> bool {
    match found {
        Ok(chi) => is_chirotope(dual(alloc, &chi), 2, 4, text),
        Err(_) => false,
    }
}

// 1 and 2 are parallel, 3 is a coloop and 4 a loop, and the last two are exchanged
#[test]
fn four_elements(rt: HostRuntime) {
    let alloc = rt.alloc();
    assert!(rt; has_dual(alloc, chirotope_of(&rt, alloc, 2, 4, "0+0+00"), "00+0-0"));
}
