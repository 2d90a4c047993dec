use om_grassmann::Statement;

/// A statement of a certificate with its multiplicity: how many times the certificate takes it, from 1 to
/// [`MAX_MULTIPLICITY`](om_signs::MAX_MULTIPLICITY).
///
/// Source: Bokowski and Richter-Gebert, *On the finding of final polynomials*, 1990.
#[derive(Clone, Copy, Debug, PartialEq, Eq)]
pub struct Entry {
    /// The statement.
    pub statement: Statement,
    /// Its multiplicity.
    pub times: u64,
}
