//! Laws of the definitions. Each law is a call that does nothing, and its contract is the law.

ghost use Rattle.std.specs.Prelude.{◌≡◌, ◌-◌, ◌^◌, ◌↔◌, ◌⊎◌, List, pos};
ghost use Rattle.std.specs.declared.cmp.Ordering.TheVariants.{Equal};
ghost use Rattle.om_signs.specs.declared.sign.Sign.{Sign};
ghost use Rattle.om_signs.specs.declared.sign.Sign.TheVariants.{Plus, Minus};
ghost use Rattle.om_signs.specs.SignVec.{IsOrthogonal, HasProduct, HasDisjointSupport};
ghost use Rattle.om_signs.specs.Order.{lexicographic};

use super::limits::{
    MAX_BLOCKS, MAX_BOX, MAX_COLUMNS, MAX_COORDINATE, MAX_DRAWN, MAX_ELEMENTS, MAX_ENTRIES,
    MAX_INPUT, MAX_LINES, MAX_MEMBERS, MAX_MULTIPLICITY, MAX_NAME, MAX_PIVOTS, MAX_PLACES,
    MAX_PLAIN, MAX_PLAIN_DIGITS, MAX_POSITION, MAX_POSITION_DIGITS, MAX_READ, MAX_ROW_NAMED,
    MAX_ROWS, MAX_STEPS, MAX_VALUES, MAX_WEIGHT, MIN_DRAWN,
};

/// Two sign vectors are orthogonal exactly if their supports are disjoint, or the products of their signs include
/// both a plus and a minus.
///
/// Source: Björner, Las Vergnas, Sturmfels, White and Ziegler, Oriented Matroids, chapter 3.
pub fn orthogonality_by_supports()
    ensures { (xs ys : List Sign) → IsOrthogonal xs ys
        ↔ (HasDisjointSupport xs ys ⊎ (HasProduct xs ys Plus × HasProduct xs ys Minus)) }
{}

/// Two sign vectors tie in the lexicographic order exactly if they are equal.
pub fn ties_of_order()
    ensures { (xs ys : List Sign) → (lexicographic xs ys ≡ Equal) ↔ (xs ≡ ys) }
{}

/// The number that each limit of the workbench is. Definitions use the limits by their names, so a changed number
/// shows in this law.
pub fn numbers_of_the_limits()
    ensures input { MAX_INPUT ≡ 2 ^ 20 }
    ensures elements { MAX_ELEMENTS ≡ 20 }
    ensures places { MAX_PLACES ≡ 21 }
    ensures members { MAX_MEMBERS ≡ 4096 }
    ensures name { MAX_NAME ≡ 16 }
    ensures blocks { MAX_BLOCKS ≡ 1024 }
    ensures coordinate { MAX_COORDINATE ≡ pos (2 ^ 40) }
    ensures multiplicity { MAX_MULTIPLICITY ≡ 2 ^ 63 }
    ensures weight { MAX_WEIGHT ≡ pos (2 ^ 100) }
    ensures entries { MAX_ENTRIES ≡ 100000 }
    ensures values { MAX_VALUES ≡ 12870 }
    ensures least_drawn { MIN_DRAWN ≡ 3 }
    ensures most_drawn { MAX_DRAWN ≡ 16 }
    ensures plain_digits { MAX_PLAIN_DIGITS ≡ 6 }
    ensures plain { MAX_PLAIN ≡ 10 ^ 6 - 1 }
    ensures position_digits { MAX_POSITION_DIGITS ≡ 3 }
    ensures position { MAX_POSITION ≡ 10 ^ 3 - 1 }
    ensures read { MAX_READ ≡ 2 ^ 32 - 2 }
    ensures rows { MAX_ROWS ≡ 1141 }
    ensures row_named { MAX_ROW_NAMED ≡ 2 ^ 16 - 1 }
    ensures columns { MAX_COLUMNS ≡ 200000 }
    ensures pivots { MAX_PIVOTS ≡ 10 ^ 6 }
    ensures box_size { MAX_BOX ≡ 1000 }
    ensures steps { MAX_STEPS ≡ 10 ^ 9 }
    ensures lines { MAX_LINES ≡ 10 ^ 6 }
{}
