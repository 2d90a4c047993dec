/// What is asked of each list of a chain.
#[derive(Clone, Copy, Debug, PartialEq, Eq)]
pub enum Asked {
    /// Each chirotope of the family is isomorphic to a member.
    Complete,
    /// The list is complete, and its members are the least map of each class, in increasing order.
    Exact,
}
