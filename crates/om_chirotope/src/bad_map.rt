use super::map_refused::MapRefused;
use om_signs::RawMap;

/// A map that is no chirotope, returned unchanged, with the reason.
#[derive(Drop)]
pub struct BadMap {
    pub raw: RawMap,
    pub why: MapRefused,
}
