//! The laws of least maps. Each function is a theorem: it has an empty body, and its contract is the statement.

ghost use Rattle.std.specs.Prelude.{ℕ, ◌≡◌, ◌<◌, List, length, All};
ghost use Rattle.std.specs.List.{Contains};
ghost use Rattle.om_chirotope.specs.Map.{SignMap, IsMap};
ghost use Rattle.om_symmetry.specs.Permutations.{AreIsomorphic};
ghost use Rattle.om_covers.specs.Classes.{IsComplete, IsSimpleChirotope, IsUniformChirotope};
ghost use Rattle.om_least.specs.Least.{IsLeast, IsIncreasing, IsOfOneMember, map_at};

/// Two isomorphic maps that are least are the same.
///
/// Source: Finschi and Fukuda, *Generation of oriented matroids* (2002).
pub fn isomorphic_least_maps()
    ensures { (m k : SignMap) → IsMap m → IsLeast m → IsLeast k → AreIsomorphic m k → m ≡ k }
{}

/// In a list of least maps, each before the next, isomorphic members stand at one place.
///
/// Source: Finschi and Fukuda, *Generation of oriented matroids* (2002).
pub fn places_of_least_maps()
    ensures { (maps : List SignMap) → All IsMap maps → All IsLeast maps → IsIncreasing maps → (i j : ℕ)
        → i < length maps → j < length maps → AreIsomorphic (map_at maps i) (map_at maps j) → i ≡ j }
{}

/// A list of least maps, each before the next, has at most one member of each class: a map that is isomorphic to some
/// member is isomorphic to the member at one place, and to no other. So a complete list of such maps, of the simple
/// chirotopes of rank 3 on n elements or of the uniform ones, has exactly one member of each class.
///
/// Source: Finschi and Fukuda, *Generation of oriented matroids* (2002).
pub fn exactly_one_of_each_class()
    ensures member { (maps : List SignMap) (m k : SignMap) → All IsMap maps → All IsLeast maps → IsIncreasing maps
        → IsMap m → Contains maps k → AreIsomorphic m k → IsOfOneMember maps m }
    ensures simple { (n : ℕ) (classes : List SignMap) (m : SignMap) → IsComplete (IsSimpleChirotope n) classes
        → All IsLeast classes → IsIncreasing classes → IsSimpleChirotope n m → IsOfOneMember classes m }
    ensures uniform { (n : ℕ) (classes : List SignMap) (m : SignMap) → IsComplete (IsUniformChirotope n) classes
        → All IsLeast classes → IsIncreasing classes → IsUniformChirotope n m → IsOfOneMember classes m }
{}
