//! Laws of the definition of claims. Each law is a function with an empty body, and its contract is the law.

ghost use Rattle.std.specs.Prelude.{ℕ, ◌≡◌, ◌≤◌, ◌↔◌, ◌⊎◌, List, length, take};
ghost use Rattle.om_document.specs.declared.code.Code.{Code};
ghost use Rattle.om_lines.specs.Lines.{Begins, lines};
ghost use Rattle.om_reply.specs.declared.claim.Claim.{Claim};
ghost use Rattle.om_answer.specs.Claim.{IsClaim};
ghost use Rattle.om_answer.specs.ClaimFault.{AreClaim, IsClaimFault};

/// All bytes, of any length, have exactly one reading. They are exactly one claim, or they have exactly one first
/// line at fault, with one code, and never both.
pub fn bytes_have_one_reading()
    // Any two claims that the same bytes spell are equal: the same document, and the same verdict with the same
    // evidence.
    ensures value { (bytes : List ℕ) (claim other : Claim) → IsClaim (lines bytes) claim → IsClaim (lines bytes) other
        → claim ≡ other }
    // Bytes have at most one first line at fault, and it has one code.
    ensures fault { (bytes : List ℕ) (line other : ℕ) (code another : Code) → IsClaimFault (lines bytes) line code
        → IsClaimFault (lines bytes) other another → (line ≡ other) × (code ≡ another) }
    // Bytes that are a claim have no fault.
    ensures apart { (bytes : List ℕ) (claim : Claim) (line : ℕ) (code : Code) → IsClaim (lines bytes) claim
        → IsClaimFault (lines bytes) line code → ⊥ }
    // Bytes are a claim, or they have a fault.
    ensures either { (bytes : List ℕ) → ((claim : Claim) × IsClaim (lines bytes) claim)
        ⊎ ((line : ℕ) × (code : Code) × IsClaimFault (lines bytes) line code) }
{}

/// The first lines of an input begin a claim as a list of lines exactly if they do as an input of bytes. The latter
/// means that some claim in bytes, of any length, begins with these lines.
pub fn claims_begin_as_bytes()
    ensures { (bytes : List ℕ) (k : ℕ) → k ≤ length (lines bytes) →
        Begins AreClaim (take k (lines bytes))
        ↔ ((text : List ℕ) × (take k (lines text) ≡ take k (lines bytes)) × AreClaim (lines text)) }
{}
