//! Laws of the definition of documents. Each law is a function with an empty body, and its contract is the law.

ghost use Rattle.std.specs.Prelude.{List};
ghost use Rattle.std.specs.List.Sorted.{IsPermutation, IsSorted};
ghost use Rattle.om_signs.specs.declared.sign.Sign.{Sign};
ghost use Rattle.om_signs.specs.Order.{lexicographic};
ghost use Rattle.om_document.specs.Rows.{sorted};

/// Sorting, as in the canonical form, keeps the members and their multiplicities.
pub fn sorting_keeps_members()
    ensures same { (ms : List (List Sign)) → IsPermutation ms (sorted ms) }
    ensures order { (ms : List (List Sign)) → IsSorted lexicographic (sorted ms) }
{}
