/// How far a decision goes before it gives up.
///
/// `box_size` is the greatest absolute value of a coordinate that the search tries, from 1 to
/// [`MAX_BOX`](om_signs::MAX_BOX). `steps` is the greatest number of words that it visits, from 1 to
/// [`MAX_STEPS`](om_signs::MAX_STEPS). `pivots` is the greatest number of pivots of the tableau, from 1 to
/// [`MAX_PIVOTS`](om_signs::MAX_PIVOTS).
#[derive(Clone, Copy, Debug, PartialEq, Eq)]
pub struct Budgets {
    /// The greatest absolute value of a coordinate.
    pub box_size: u16,
    /// The greatest number of words that the search visits.
    pub steps: u64,
    /// The greatest number of pivots of the tableau.
    pub pivots: u32,
}
