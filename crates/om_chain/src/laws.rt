//! What is shown of a list, as laws. Each function is a theorem: it has an empty body, and its contract is the
//! statement.

ghost use Rattle.std.specs.Prelude.{ℕ, List};
ghost use Rattle.std.specs.List.{Contains};
ghost use Rattle.om_chirotope.specs.Map.{SignMap};
ghost use Rattle.om_symmetry.specs.Permutations.{AreIsomorphic};
ghost use Rattle.om_least.specs.Least.{IsOfOneMember};
ghost use Rattle.om_levels.specs.declared.family.Family.{Family};
ghost use Rattle.om_levels.specs.Families.{IsOfFamily};
ghost use Rattle.om_chain.specs.declared.asked.Asked.{Asked};
ghost use Rattle.om_chain.specs.Chains.{IsExact, IsShown};

/// In a list that is shown each member is a chirotope of the family, and each chirotope of the family is isomorphic to
/// some member, whatever was asked.
///
/// Source: Björner, Las Vergnas, Sturmfels, White and Ziegler, *Oriented Matroids*, chapters 3 and 7.
pub fn shown_lists()
    ensures members { (asked : Asked) (family : Family) (n : ℕ) (classes : List SignMap) (m : SignMap)
        → IsShown asked family n classes → Contains classes m → IsOfFamily family n m }
    ensures each { (asked : Asked) (family : Family) (n : ℕ) (classes : List SignMap) (m : SignMap)
        → IsShown asked family n classes → IsOfFamily family n m
        → (k : SignMap) × Contains classes k × AreIsomorphic m k }
{}

/// If a list is exact, each chirotope of the family on n elements is isomorphic to exactly one member.
///
/// Source: Finschi and Fukuda, *Generation of oriented matroids* (2002).
pub fn lists_with_one_of_each_class()
    ensures { (family : Family) (n : ℕ) (classes : List SignMap) (m : SignMap) → IsExact family n classes
        → IsOfFamily family n m → IsOfOneMember classes m }
{}
