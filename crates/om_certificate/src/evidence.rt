use super::entry::Entry;
use super::weight::Weight;
use om_signs::List;
use om_vectors::Word;

/// What is given as proof of a verdict on a chirotope of rank 3. [`check`](super::check) decides whether it is a
/// proof.
///
/// Source: Bokowski and Richter-Gebert, *On the finding of final polynomials*, 1990.
#[derive(Drop)]
pub enum Evidence {
    /// Vectors that realize the chirotope, one for each element.
    Vectors(Word),
    /// A certificate that no vectors realize the chirotope: statements whose small and big sides balance.
    Balanced(List<Entry>),
    /// Weights of the nonzero brackets, in lexicographic order, which show that there is no such certificate.
    Weights(List<Weight>),
}
