use super::document_refused::DocumentRefused;

/// Why a document gives no oriented matroid.
#[derive(Clone, Copy)]
pub enum Unrepresented {
    /// It fails the axioms of its kind, and this is the first violated instance.
    Refused(DocumentRefused),
    /// It is a wiring whose map is zero at each triple: it meets its axioms, and gives no chirotope.
    Flat,
    /// Memory ran out for the signs of the chirotope of points, or of a wiring that isn't flat.
    Memory,
}
