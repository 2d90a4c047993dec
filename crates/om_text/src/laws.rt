//! Laws of the definition of documents. Each law is a function with an empty body, and its contract is the law.

ghost use Rattle.std.specs.Prelude.{◌≡◌, ℕ, ◌≤◌, ◌↔◌, ◌⊎◌, List, length, take};
ghost use Rattle.om_document.specs.declared.document.Document.{Document};
ghost use Rattle.om_document.specs.declared.code.Code.{Code};
ghost use Rattle.om_lines.specs.Lines.{lines, Begins};
ghost use Rattle.om_document.specs.Document.{IsDocument};
ghost use Rattle.om_text.specs.Fault.{IsFault, AreDocument};

/// An input has at most one value.
pub fn values_are_unique()
    ensures { (ls : List (List ℕ)) (d e : Document) →
        IsDocument ls d → IsDocument ls e → d ≡ e }
{}

/// An input has at most one first fault.
pub fn faults_are_unique()
    ensures { (ls : List (List ℕ)) (line other : ℕ) (code another : Code) →
        IsFault ls line code → IsFault ls other another → (line ≡ other) × (code ≡ another) }
{}

/// A document has no fault.
pub fn documents_have_no_fault()
    ensures { (ls : List (List ℕ)) (d : Document) (line : ℕ) (code : Code) →
        IsDocument ls d → IsFault ls line code → ⊥ }
{}

/// Every input, whatever its bytes, is a document or has a first fault.
pub fn inputs_are_documents_or_have_faults()
    ensures { (ls : List (List ℕ)) →
        ((d : Document) × IsDocument ls d) ⊎ ((line : ℕ) × (code : Code) × IsFault ls line code) }
{}

/// The first lines of an input begin a document as a list of lines exactly if they do as an input of bytes. The
/// latter means that some document in bytes, of any length, begins with these lines.
pub fn documents_begin_as_bytes()
    ensures { (bytes : List ℕ) (k : ℕ) → k ≤ length (lines bytes) →
        Begins AreDocument (take k (lines bytes))
        ↔ ((text : List ℕ) × (take k (lines text) ≡ take k (lines bytes)) × AreDocument (lines text)) }
{}
