//! What the lists of an answer are, as a law. The function is a theorem: it has an empty body, and its contract is the
//! statement.

ghost use Rattle.std.specs.Prelude.{ℕ, ◌≡◌, ◌+◌, ◌<◌, List, length, slice_index_or, []};
ghost use Rattle.om_chirotope.specs.Map.{SignMap};
ghost use Rattle.om_chain.specs.declared.asked.Asked.TheVariants.{Exact};
ghost use Rattle.om_least.specs.Least.{IsOfOneMember};
ghost use Rattle.om_levels.specs.Families.{IsOfFamily};
ghost use Rattle.om_classification.specs.declared.request.ListRequest.{ListRequest as Asking};
ghost use Rattle.om_classification.specs.Lists.{IsTextOfAll, first};

/// If exact lists are asked for, and the pieces are the members of lists that are shown, then each chirotope of rank 3
/// without loops and parallel elements is isomorphic to exactly one member of the list on as many elements. With
/// `uniform` this is said of each chirotope of rank 3 without a zero.
///
/// Source: Finschi and Fukuda, *Generation of oriented matroids* (2002).
pub fn exact_lists()
    ensures { (r : Asking) (pieces : List (List ℕ)) (text : List ℕ) (all : IsTextOfAll r pieces text) (i : ℕ)
        (m : SignMap) → r.asked ≡ Exact → i < length all.lists → IsOfFamily r.family (i + first) m
        → IsOfOneMember (slice_index_or all.lists i []) m }
{}
