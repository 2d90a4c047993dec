//! Deletion and contraction of an element of a chirotope on the elements 1 to n + 1.

ghost use Rattle.std.specs.Prelude.{◌↔◌, List, ℕ, suc};
ghost use Rattle.om_signs.specs.declared.sign.Sign.{Sign};
ghost use Rattle.om_laws.specs.Vectors.{SignVector};
ghost use Rattle.om_laws.specs.Sorting.{IsElement};
ghost use Rattle.om_laws.specs.Chirotope.{IsChirotope, elements_to};
ghost use Rattle.om_laws.specs.Covectors.{IsCovector};
ghost use Rattle.om_laws.specs.Parallel.{IsLoop, IsColoop, IsInBase};
ghost use Rattle.om_laws.specs.Minors.{deletion, contraction, IsAvoided, IsCovectorWithout, IsZeroCovectorWithout};

/// The deletion of an element that some basis avoids is a chirotope, and its covectors are the covectors without
/// the element.
pub fn deletion_of_an_element()
    ensures chirotope { (n e : ℕ) → IsElement (suc n) e → (chi : List ℕ → Sign) → IsChirotope (elements_to (suc n)) chi
        → IsAvoided chi e → IsChirotope (elements_to n) (deletion e chi) }
    ensures covectors { (n e : ℕ) → IsElement (suc n) e → (chi : List ℕ → Sign) → IsChirotope (elements_to (suc n)) chi
        → IsAvoided chi e → (X : SignVector) → IsCovector (elements_to n) (deletion e chi) X
        ↔ IsCovectorWithout e (elements_to (suc n)) chi X }
{}

/// The contraction of an element of some basis is a chirotope. Its covectors are the covectors that are zero at the
/// element, without the element.
pub fn contraction_of_an_element()
    ensures chirotope { (n e : ℕ) → IsElement (suc n) e → (chi : List ℕ → Sign) → IsChirotope (elements_to (suc n)) chi
        → IsInBase chi e → IsChirotope (elements_to n) (contraction e chi) }
    ensures covectors { (n e : ℕ) → IsElement (suc n) e → (chi : List ℕ → Sign) → IsChirotope (elements_to (suc n)) chi
        → IsInBase chi e → (X : SignVector) → IsCovector (elements_to n) (contraction e chi) X
        ↔ IsZeroCovectorWithout e (elements_to (suc n)) chi X }
{}

/// The covectors of the contraction of a coloop are the covectors without the coloop. The covectors of the deletion
/// of a loop are the covectors that are zero at the loop, without the loop.
pub fn minors_at_a_coloop_or_loop()
    ensures at_coloop { (n e : ℕ) → IsElement (suc n) e → (chi : List ℕ → Sign) → IsChirotope (elements_to (suc n)) chi
        → IsColoop chi e → (X : SignVector) → IsCovector (elements_to n) (contraction e chi) X
        ↔ IsCovectorWithout e (elements_to (suc n)) chi X }
    ensures at_loop { (n e : ℕ) → IsElement (suc n) e → (chi : List ℕ → Sign) → IsChirotope (elements_to (suc n)) chi
        → IsLoop chi e → (X : SignVector) → IsCovector (elements_to n) (deletion e chi) X
        ↔ IsZeroCovectorWithout e (elements_to (suc n)) chi X }
{}
