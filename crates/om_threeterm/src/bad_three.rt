//! A map that the test refuses.

use super::three_refused::ThreeRefused;
use om_signs::RawMap;

/// A map that fails the three-term test, returned unchanged, and the reason.
#[derive(Drop)]
pub struct BadThree {
    pub raw: RawMap,
    pub why: ThreeRefused,
}
