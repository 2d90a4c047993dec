//! Comparisons of results with texts.

use om_chirotope::Chirotope;
use om_circuits::{Circuits, Cocircuits};
use om_covectors::Covectors;
use om_samples::{are_vectors, is_map};
use om_signs::{List, SignVec};
use std::process::Abort;

/// Asserts that each of some cases holds. A test states its cases with this one, so that their loop is proved once.
pub fn hold<R: Abort>(rt: &R, cases: &[(&str, bool)]) {
    for (case, holds) in cases {
        assert!(rt; *holds, "{case}");
    }
}

/// Whether a chirotope was found, and has this rank, this many elements and the signs of a text.
pub fn is_chirotope<E: Drop>(
    found: Result<Chirotope, E>,
    rank: u8,
    elements: u8,
    text: &str,
) -> bool {
    match found {
        Ok(chi) => is_map(&chi.into_raw(), rank, elements, text),
        Err(_) => false,
    }
}

/// Whether sign vectors were found, and are those of a text.
pub fn are_found<E: Drop>(found: Result<List<SignVec>, E>, text: &str) -> bool {
    match found {
        Ok(list) => are_vectors(list.as_slice(), text),
        Err(_) => false,
    }
}

/// Whether circuits were found, and are the sign vectors of a text.
pub fn are_circuits<E: Drop>(found: Result<Circuits, E>, text: &str) -> bool {
    match found {
        Ok(circuits) => are_vectors(circuits.0.members(), text),
        Err(_) => false,
    }
}

/// Whether cocircuits were found, and are the sign vectors of a text.
pub fn are_cocircuits<E: Drop>(found: Result<Cocircuits, E>, text: &str) -> bool {
    match found {
        Ok(cocircuits) => are_vectors(cocircuits.0.members(), text),
        Err(_) => false,
    }
}

/// Whether covectors were found, and are the sign vectors of a text.
pub fn are_covectors<E: Drop>(found: Result<Covectors, E>, text: &str) -> bool {
    match found {
        Ok(covectors) => are_vectors(covectors.members(), text),
        Err(_) => false,
    }
}
