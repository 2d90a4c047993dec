use super::set_refused::SetRefused;
use om_signs::{List, SignVec};

/// A list that was refused, unchanged, and the reason.
#[derive(Drop)]
pub struct BadSet {
    pub list: List<SignVec>,
    pub why: SetRefused,
}
