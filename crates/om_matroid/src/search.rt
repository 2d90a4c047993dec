//! The walk over the sets of as many elements as the rank, in lexicographic order.

ghost use Rattle.std.specs.Prelude.{◌≡◌, ◌↔◌, ℕ, List, IsTrue, IsNone, IfSome};
ghost use Rattle.om_chirotope.specs.ThreeTerm.{IsBasis};
ghost use Rattle.om_matroid.specs.Search.{IsBasisBetween, IsFirstBetween};

use om_chirotope::Chirotope;
use om_signs::Sign;
use om_subsets::Subset;

/// Whether a set is a basis.
pub fn is_basis(chi: &Chirotope, b: Subset) -> bool
    requires { b.n ≡ chi.now.elements }
    ensures { IsTrue result ↔ IsBasis chi.now b.elements }
{
    b.size() == chi.rank() && chi.at(b) != Sign::Zero
}

/// Whether a set is a basis that contains one set and avoids another.
fn is_between(chi: &Chirotope, inside: Subset, outside: Subset, b: Subset) -> bool
    requires inside { inside.n ≡ chi.now.elements }
    requires outside { outside.n ≡ chi.now.elements }
    requires set { b.n ≡ chi.now.elements }
    ensures { IsTrue result ↔ IsBasisBetween chi.now inside.elements outside.elements b.elements }
{
    inside.is_part_of(b) && outside.is_apart_from(b) && is_basis(chi, b)
}

/// The lexicographically first basis that contains one set and avoids another, or None if there is no such basis.
pub fn first_between(chi: &Chirotope, inside: Subset, outside: Subset) -> Option<Subset>
    requires inside { inside.n ≡ chi.now.elements }
    requires outside { outside.n ≡ chi.now.elements }
    ensures none { IsNone result ↔ ((b : List ℕ) → IsBasisBetween chi.now inside.elements outside.elements b → ⊥) }
    ensures n { IfSome result (λ b. b.n ≡ chi.now.elements) }
    ensures first { IfSome result (λ b. IsFirstBetween chi.now inside.elements outside.elements b.elements) }
{
    Subset::all(chi.rank(), chi.elements()).find(|b| is_between(chi, inside, outside, *b))
}
