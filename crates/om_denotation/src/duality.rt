//! The dual of a chirotope.

ghost use Rattle.std.specs.Prelude.{◌≡◌, ◌≤◌, ◌+◌, ◌-◌, ◌++◌, ◌∷◌, [], IfOk};
ghost use Rattle.om_signs.specs.declared.sign.Sign.TheVariants.{Plus};
ghost use Rattle.om_subsets.specs.Subsets.{IsSubsetFrom};
ghost use Rattle.om_laws.specs.Chirotope.{elements_to};
ghost use Rattle.om_laws.specs.Dual.{complement, dual_on_increasing};
ghost use Rattle.om_laws.specs.Tuples.{sort_sign};
ghost use Rattle.om_chirotope.specs.Map.{chi_of, IsLedBy};
ghost use Rattle.om_denotation.specs.Covectors.{IsCovectorOfChirotope};
ghost use Rattle.om_denotation.specs.Operations.{IsDual};
ghost use Rattle.om_denotation.specs.Maps.{IsNormalFormOf};
ghost use Rattle.om_denotation.specs.Dual.{dual_of};
ghost use Rattle.om_denotation.specs.Only.{IsOnlyChirotope};

use super::sign_rule::{SignRule, normal_by};
use om_chirotope::Chirotope;
use om_signs::{NoMemory, Sign};
use om_subsets::Subset;
use std::alloc::Global;

/// The normal chirotope of the dual, whose covectors are the sign vectors that are orthogonal to every covector.
/// Its rank is the number of elements minus the rank. It is the normal form of a map in which each increasing list
/// has the sign of its complement, times the sign of a permutation. This permutation lists the elements of the list
/// and then those of the complement, both in order. Memory for the signs comes from `alloc`.
///
/// [`NoMemory`] comes only if memory runs out.
///
/// Source: Björner, Las Vergnas, Sturmfels, White and Ziegler, *Oriented Matroids*, chapter 3.
pub fn dual(alloc: Global, chi: &Chirotope) -> Result<Chirotope, NoMemory>
    ensures rank { IfOk result (λ d. d.rank + chi.now.rank ≡ chi.now.elements) }
    ensures elements { IfOk result (λ d. d.elements ≡ chi.now.elements) }
    ensures dual { IfOk result (λ d.
        IsDual chi.now.elements (IsCovectorOfChirotope chi.now) (IsCovectorOfChirotope d)) }
    ensures normal { IfOk result (λ d. IsLedBy Plus d.signs) }
    ensures value { IfOk result (IsNormalFormOf (dual_of chi.now)) }
    ensures unique { IfOk result IsOnlyChirotope }
{
    let rank = chi.elements() - chi.rank();
    normal_by(alloc, rank, chi.elements(), &Complements { chi })
}

/// The rule of the dual.
#[derive(Drop)]
struct Complements<'a> {
    chi: &'a Chirotope,
}

impl SignRule for Complements<'_> {
    ghost use Rattle.std.specs.Prelude.{◌-◌};
    ghost use Rattle.om_chirotope.specs.Map.{chi_of};
    ghost use Rattle.om_chirotope.specs.Chirotope.{IsChirotopeWithinLimits};
    ghost use Rattle.om_laws.specs.Dual.{dual_on_increasing};

    ghost rank = { λ c. c.chi.now.elements - c.chi.now.rank };

    ghost elements = { λ c. c.chi.now.elements };

    ghost rule = { λ c. dual_on_increasing c.chi.now.elements (chi_of c.chi.now) };

    ghost valid = { λ c. IsChirotopeWithinLimits c.chi.now };

    fn sign(&self, s: Subset) -> Sign {
        let rest = s.complement();
        let sign = self.chi.at(rest);
        listing_sign(s).times(sign)
    }
}

/// The sign of the permutation that lists the elements of a set in order, and then the other elements in order.
fn listing_sign(s: Subset) -> Sign
    ensures { result ≡ sort_sign (s.elements ++ complement (elements_to s.n) s.elements) }
{
    let mut sign = Sign::Plus;
    for e in 1..s.n() + 1 {
        sign = sign.times(moving_sign(s, e));
    }
    sign
}

/// For an element that isn't in the set: the sign of the permutation that moves it from the end of the set over the
/// greater elements of the set. For an element of the set it is plus. The element is from 1 to n.
fn moving_sign(s: Subset, e: u8) -> Sign
    requires low { 1 ≤ e }
    requires high { e ≤ s.n }
    requires lawful { IsSubsetFrom 1 s.n s.elements }
    ensures { result ≡ sort_sign (s.elements ++ complement (e ∷ []) s.elements) }
{
    if s.has(e) {
        return Sign::Plus;
    }
    if s.odd_after(e) {
        Sign::Minus
    } else {
        Sign::Plus
    }
}
