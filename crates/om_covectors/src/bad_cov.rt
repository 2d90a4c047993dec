use super::cov_refused::CovRefused;
use om_signs::{List, SignVec};

/// A list that was refused, unchanged, and the reason.
#[derive(Drop)]
pub struct BadCov {
    pub list: List<SignVec>,
    pub why: CovRefused,
}
