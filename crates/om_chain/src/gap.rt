use om_localize::Signature;

/// Why the list that was read isn't shown by the list before it.
#[derive(Clone, Copy, Debug)]
pub enum Gap {
    /// The extension of a member of the list before by this signature isn't found in the list that was read.
    Missing {
        /// The place of the member in the list before, counted from 0.
        member: usize,
        /// The signature.
        signature: Signature,
    },
    /// All extensions are found in the list that was read, and none of them at this member.
    Unmet {
        /// The place of the member in the list that was read, counted from 0.
        member: usize,
    },
    /// A member of the list before has more than [`MAX_LINES`](om_signs::MAX_LINES) signatures, and they aren't
    /// listed.
    TooMany {
        /// The place of the member in the list before, counted from 0.
        member: usize,
    },
}
