use om_localize::Signature;

/// What the step finds about a list on n elements and one on n + 1.
#[derive(Clone, Copy, Debug)]
pub enum Verdict {
    /// If the first list is complete, so is the next one.
    Complete,
    /// The extension of a member of the first list by this signature isn't found in the next one.
    Missing {
        /// The place of the member, counted from 0.
        member: usize,
        /// The signature.
        signature: Signature,
    },
    /// All extensions are found in the next list, and none of them at this member.
    Unmet {
        /// The place of the member, counted from 0.
        member: usize,
    },
    /// A member of the first list has more than [`MAX_LINES`](om_signs::MAX_LINES) signatures, and they aren't listed.
    TooMany {
        /// The place of the member, counted from 0.
        member: usize,
    },
}
