//! Sign vectors as lists of signs, and as functions from elements to signs.

ghost use Rattle.std.specs.Prelude.{◌≡◌, ◌↔◌, List, ℕ, map, length};
ghost use Rattle.om_signs.specs.declared.sign.Sign.{Sign};
ghost use Rattle.om_signs.specs.Sign.{opposite};
ghost use Rattle.om_signs.specs.SignVec as lists;
ghost use Rattle.om_laws.specs.Vectors.{SignVector, IsSupportedOn, Orthogonal, IsConformal, composition, negated};
ghost use Rattle.om_laws.specs.Sorting.{IsIncreasing, IsTuple};
ghost use Rattle.om_laws.specs.Relations.{around, along, IsBalanced};
ghost use Rattle.om_laws.specs.Chirotope.{elements_to};
ghost use Rattle.om_laws.specs.Bridge.{as_function, as_list};

/// Lists of signs and functions that are zero off the elements 1 to n correspond one to one.
pub fn lists_and_functions()
    ensures back { (xs : List Sign) → as_list (length xs) (as_function xs) ≡ xs }
    ensures forth { (n : ℕ) (X : SignVector) → IsSupportedOn (elements_to n) X → (e : ℕ)
        → as_function (as_list n X) e ≡ X e }
{}

/// Two lists of signs are orthogonal exactly if their functions are.
pub fn orthogonality_of_lists()
    ensures { (xs ys : List Sign) → lists.IsOrthogonal xs ys ↔ Orthogonal (as_function xs) (as_function ys) }
{}

/// The function of a composition of lists of signs is the composition of their functions.
pub fn composition_of_lists()
    ensures { (xs ys : List Sign) (e : ℕ) → as_function (lists.compose xs ys) e
        ≡ composition (as_function xs) (as_function ys) e }
{}

/// One list of signs conforms to another exactly if its function conforms to the other's.
pub fn conformity_of_lists()
    ensures { (xs ys : List Sign) → lists.IsConformal xs ys ↔ IsConformal (as_function xs) (as_function ys) }
{}

/// The function of a negated list of signs is the negative of its function.
pub fn negation_of_lists()
    ensures { (xs : List Sign) (e : ℕ) → as_function (map opposite xs) e ≡ negated (as_function xs) e }
{}

/// Let s be increasing. The relation of s and a says that the vectors around s and along a are orthogonal as lists
/// of signs.
pub fn relation_as_orthogonality()
    ensures { (n k : ℕ) (chi : List ℕ → Sign) (s a : List ℕ) → IsTuple n k s → IsIncreasing s
        → IsBalanced chi s (along chi a) ↔ lists.IsOrthogonal (as_list n (around chi s)) (as_list n (along chi a)) }
{}
