//! What the definitions in the crate's contracts mean. Each law is a function that does nothing: its contract is
//! the law.

ghost use Rattle.std.specs.Prelude.{ℕ, ◌≡◌, ◌+◌, ◌⊎◌, ◌↔◌, true, false, List, Some, slice_get};
ghost use Rattle.om_chirotope.specs.Map.{SignMap};
ghost use Rattle.om_grassmann.specs.declared.statement.Statement.{Statement};
ghost use Rattle.om_grassmann.specs.Statements.{IsLawful, exchanged};
ghost use Rattle.om_grassmann.specs.Sides.{AreDistinct, HasNonzeroBrackets, HasFourBrackets};
ghost use Rattle.om_grassmann.specs.Order.{IsBefore, IsNext, IsLast, AreAll, IsNumber, HasAtMost};

/// The elements of a lawful statement are distinct. The four brackets of its sides are four different increasing
/// lists of three elements, with nonzero values.
pub fn brackets_of_lawful_statements()
    ensures distinct { (m : SignMap) (st : Statement) → IsLawful m st → AreDistinct m.elements st }
    ensures nonzero { (m : SignMap) (st : Statement) → IsLawful m st → HasNonzeroBrackets m st st.small
        × HasNonzeroBrackets m st st.big }
    ensures differ { (m : SignMap) (st : Statement) → IsLawful m st → HasFourBrackets st }
{}

/// Of two lawful statements, one comes before the other, or they are equal. No statement comes before itself, nor
/// before one that comes before it. So the order numbers the lawful statements.
pub fn order_of_lawful_statements()
    ensures total { (m : SignMap) (s t : Statement) → IsLawful m s → IsLawful m t → IsBefore s t ⊎ (s ≡ t)
        ⊎ IsBefore t s }
    ensures strict { (s : Statement) → IsBefore s s → ⊥ }
    ensures transitive { (s t u : Statement) → IsBefore s t → IsBefore t u → IsBefore s u }
{}

/// The lawful statements on given a, b, c, d, e are all strict or all equations.
pub fn strict_or_equations()
    ensures { (m : SignMap) (s t : Statement) → IsLawful m s → IsLawful m t → s.a ≡ t.a → s.b ≡ t.b → s.c ≡ t.c
        → s.d ≡ t.d → s.e ≡ t.e → s.strict ≡ t.strict }
{}

/// A lawful equation is also lawful with its two sides exchanged, and a strict statement isn't.
///
/// Source: Bokowski and Richter-Gebert, *On the finding of final polynomials*, 1990.
pub fn directions_of_equations()
    ensures equation { (m : SignMap) (st : Statement) → IsLawful m st → st.strict ≡ false → IsLawful m (exchanged st) }
    ensures strict { (m : SignMap) (st : Statement) → IsLawful m st → st.strict ≡ true → IsLawful m (exchanged st) → ⊥ }
{}

/// A number belongs to one lawful statement. No lawful statement comes before number 0, and the next one after
/// number k has the number k + 1. If number k is the last one, there are at most k + 1 lawful statements. If there
/// are at most k, none has the number k.
///
/// In the list of all lawful statements, number k is at place k, counted from 0. So one walk by
/// [`following`](super::following), from number 0 to the last, gives this list.
pub fn numbers_of_lawful_statements()
    ensures unique { (m : SignMap) (k : ℕ) (s t : Statement) → IsNumber m k s → IsNumber m k t → s ≡ t }
    ensures first { (m : SignMap) (s u : Statement) → IsNumber m 0 s → IsLawful m u → (u ≡ s) ⊎ IsBefore s u }
    ensures next { (m : SignMap) (k : ℕ) (s t : Statement) → IsNumber m k s → IsNext m s t → IsNumber m (k + 1) t }
    ensures last { (m : SignMap) (k : ℕ) (s : Statement) → IsNumber m k s → IsLast m s → HasAtMost m (k + 1) }
    ensures none { (m : SignMap) (u : Statement) → HasAtMost m 0 → IsLawful m u → ⊥ }
    ensures past { (m : SignMap) (k : ℕ) (s : Statement) → HasAtMost m k → IsNumber m k s → ⊥ }
    ensures listed { (m : SignMap) (ss : List Statement) (k : ℕ) (t : Statement) → AreAll m ss
        → (slice_get ss k ≡ Some t) ↔ IsNumber m k t }
{}
