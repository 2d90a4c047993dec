/// The counts of the summary of some vectors and their chirotope of rank 3.
#[derive(Clone, Copy, Debug, PartialEq, Eq)]
pub struct Tally {
    /// The number of triples with the sign plus.
    pub plus: u32,
    /// The number of triples with the sign 0.
    pub zero: u32,
    /// The number of triples with the sign minus.
    pub minus: u32,
    /// The number of cocircuits.
    pub cocircuits: u32,
    /// The number of covectors, including the zero vector.
    pub covectors: u32,
    /// The number of mutations.
    pub mutations: u32,
}
