//! Chirotopes given by a rule for their signs.

ghost use Rattle.std.specs.Prelude.{ℕ, ◌≡◌, List, IfOk, length};
ghost use Rattle.om_signs.specs.declared.sign.Sign.{Sign};
ghost use Rattle.om_subsets.specs.Subsets.{all_subsets};
ghost use Rattle.om_chirotope.specs.Chirotope.{IsChirotope, IsWithinLimits};
ghost use Rattle.om_denotation.specs.Maps.{map_by, IsNormalFormOf};

use om_chirotope::Chirotope;
use om_signs::{NoMemory, RawMap, Sign};
use om_subsets::Subset;
use std::alloc::Global;

/// A rule that gives a sign to each increasing list of some size.
pub trait SignRule {
    /// The size of the lists.
    ghost rank: { Self → ℕ };

    /// The number n, if the lists are taken from the elements 1 to n.
    ghost elements: { Self → ℕ };

    /// The sign of each list.
    ghost rule: { Self → List ℕ → Sign };

    /// What has to hold of the value.
    ghost valid: { Self → Type 0 };

    /// The sign of a set. Its size is the rank of the rule, and it is taken from the elements of the rule.
    fn sign(&self, s: Subset) -> Sign
        requires valid { valid self.now }
        requires n { s.n ≡ elements self.now }
        requires size { length s.elements ≡ rank self.now }
        ensures { result ≡ rule self.now s.elements };
}

/// The normal form of the chirotope with the signs of a rule: the one of it and its negative whose first nonzero
/// sign is plus. `rank` and `elements` are those of the rule, and the rule is `valid`. There are from 1 to
/// [`MAX_ELEMENTS`](om_signs::MAX_ELEMENTS) elements. The signs have to make a chirotope, which isn't tested.
/// Memory for the signs comes from `alloc`.
///
/// [`NoMemory`] comes only if memory runs out.
///
/// Source: Björner, Las Vergnas, Sturmfels, White and Ziegler, *Oriented Matroids*, chapter 3.
pub fn normal_by<T: SignRule>(
    alloc: Global,
    rank: u8,
    elements: u8,
    rule: &T,
) -> Result<Chirotope, NoMemory>
    requires valid { T.valid rule.now }
    requires rank { T.rank rule.now ≡ rank }
    requires elements { T.elements rule.now ≡ elements }
    requires axioms { IsChirotope (map_by rank elements (T.rule rule.now)) }
    requires limits { IsWithinLimits (map_by rank elements (T.rule rule.now)) }
    ensures { IfOk result (IsNormalFormOf (map_by rank elements (T.rule rule.now))) }
{
    let mut signs = om_signs::List::new(alloc);
    for s in Subset::all(rank, elements) {
        signs.push(rule.sign(s))?;
    }
    Ok(Chirotope::lawful(RawMap {
        rank,
        elements,
        signs,
    })
    .normal())
}
