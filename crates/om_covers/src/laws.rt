//! Laws of classes. Each function is a theorem: it has an empty body, and its contract is the statement.

ghost use Rattle.std.specs.Prelude.{ℕ, ◌+◌, ◌<◌, ◌≤◌, List, [], ◌∷◌, false};
ghost use Rattle.std.specs.List.{Contains};
ghost use Rattle.om_signs.specs.declared.sign.Sign.{Sign};
ghost use Rattle.om_chirotope.specs.Map.{SignMap};
ghost use Rattle.om_chirotope.specs.Chirotope.{IsChirotope};
ghost use Rattle.om_minors.specs.Minors.{deleted};
ghost use Rattle.om_localize.specs.Extensions.{IsExtension, IsSignature};
ghost use Rattle.om_localize.specs.Listings.{AreFirst};
ghost use Rattle.om_symmetry.specs.declared.signed_element.SignedElement.{SignedElement};
ghost use Rattle.om_symmetry.specs.Permutations.{IsSignedPermutation, acted, lifted};
ghost use Rattle.om_covers.specs.Classes.{IsSimple, IsUniform, HasBasisBeforeLast, IsSimpleChirotope};
ghost use Rattle.om_covers.specs.Classes.{IsUniformChirotope, IsComplete};
ghost use Rattle.om_covers.specs.Covers.{IsSimpleHalf, IsUniformHalf, IsCover, IsCoverByLines, triangle};

/// In the image of a simple map every two elements are together in some basis too, and the image of a uniform map is
/// uniform.
///
/// Source: Björner, Las Vergnas, Sturmfels, White and Ziegler, *Oriented Matroids*, chapter 3.
pub fn images_of_simple_chirotopes()
    ensures simple { (m : SignMap) (w : List SignedElement) → IsSignedPermutation m.elements w → IsSimple m
        → IsSimple (acted w m) }
    ensures uniform { (m : SignMap) (w : List SignedElement) → IsSignedPermutation m.elements w → IsUniform m
        → IsUniform (acted w m) }
{}

/// A chirotope whose rank is below the number of its elements has an image in which some basis doesn't have the last
/// element.
///
/// Source: Björner, Las Vergnas, Sturmfels, White and Ziegler, *Oriented Matroids*, chapter 3.
pub fn last_element_off_a_basis()
    ensures { (m : SignMap) → IsChirotope m → m.rank < m.elements
        → (w : List SignedElement) × IsSignedPermutation m.elements w × HasBasisBeforeLast (acted w m) }
{}

/// If some basis doesn't have the last element, a chirotope is an extension of its deletion. If it is simple or
/// uniform, so is the deletion.
///
/// Source: Björner, Las Vergnas, Sturmfels, White and Ziegler, *Oriented Matroids*, chapters 3 and 7.
pub fn deletion_of_the_last_element()
    ensures chirotope { (x : SignMap) → IsChirotope x → 2 ≤ x.elements → HasBasisBeforeLast x
        → IsChirotope (deleted x.elements x) }
    ensures extension { (x : SignMap) → IsChirotope x → 2 ≤ x.elements → HasBasisBeforeLast x
        → IsExtension (deleted x.elements x) x }
    ensures simple { (x : SignMap) → IsChirotope x → 2 ≤ x.elements → HasBasisBeforeLast x → IsSimple x
        → IsSimple (deleted x.elements x) }
    ensures uniform { (x : SignMap) → IsChirotope x → 2 ≤ x.elements → HasBasisBeforeLast x → IsUniform x
        → IsUniform (deleted x.elements x) }
{}

/// The image of an extension by one element, under the lift of a signed permutation, is an extension of the image.
///
/// Source: Björner, Las Vergnas, Sturmfels, White and Ziegler, *Oriented Matroids*, chapter 7.
pub fn extensions_go_along()
    ensures { (m x : SignMap) (w : List SignedElement) → IsSignedPermutation m.elements w → IsExtension m x
        → IsExtension (acted w m) (acted (lifted w) x) }
{}

/// A listing of signatures after which no further one exists has the signature of each extension.
///
/// Source: Björner, Las Vergnas, Sturmfels, White and Ziegler, *Oriented Matroids*, chapter 7.
pub fn whole_listing()
    ensures { (m : SignMap) (k : ℕ) (lines : List (List Sign)) (signs : List Sign)
        → AreFirst (IsSignature m) k lines false → IsSignature m signs → Contains lines signs }
{}

/// Each chirotope of rank 3 on three elements is isomorphic to the one with the sign plus. It is simple and uniform, so
/// the list of it alone is complete.
///
/// Source: Björner, Las Vergnas, Sturmfels, White and Ziegler, *Oriented Matroids*, chapter 3.
pub fn three_elements()
    ensures simple { IsComplete (IsSimpleChirotope 3) (triangle ∷ []) }
    ensures uniform { IsComplete (IsUniformChirotope 3) (triangle ∷ []) }
{}

/// The step. Take a complete list on n elements, n at least 3, and a list of which each member is isomorphic to an
/// extension of a member of the first by a signature that is led by minus and isn't zero at all pairs with some
/// element. If each such extension is isomorphic to a member of the second list, this list is complete on n + 1
/// elements. It is the same for uniform chirotopes, with signatures that are led by minus and have no zero.
///
/// Source: Björner, Las Vergnas, Sturmfels, White and Ziegler, *Oriented Matroids*, chapter 7.
pub fn next_list_is_complete()
    ensures simple { (n : ℕ) (classes next : List SignMap) → 3 ≤ n → IsComplete (IsSimpleChirotope n) classes
        → IsCover (IsSimpleHalf n) n classes next → IsComplete (IsSimpleChirotope (n + 1)) next }
    ensures uniform { (n : ℕ) (classes next : List SignMap) → 3 ≤ n → IsComplete (IsUniformChirotope n) classes
        → IsCover IsUniformHalf n classes next → IsComplete (IsUniformChirotope (n + 1)) next }
{}

/// A cover that is found line by line is a cover. For each member of a complete list and each of its signatures that
/// are led by minus and not zero at all pairs with some element, let some signed permutation take the extension with
/// this signature to a member of the next list, and let each member of that list be reached. It is the same for
/// uniform chirotopes, with signatures that are led by minus and have no zero.
///
/// Source: Björner, Las Vergnas, Sturmfels, White and Ziegler, *Oriented Matroids*, chapter 7.
pub fn cover_by_lines()
    ensures simple { (n : ℕ) (classes next : List SignMap) → IsComplete (IsSimpleChirotope n) classes
        → IsCoverByLines (IsSimpleHalf n) n classes next → IsCover (IsSimpleHalf n) n classes next }
    ensures uniform { (n : ℕ) (classes next : List SignMap) → IsComplete (IsUniformChirotope n) classes
        → IsCoverByLines IsUniformHalf n classes next → IsCover IsUniformHalf n classes next }
{}
