//! Exchange of elements of two bases.

ghost use Rattle.std.specs.Prelude.{◌≡◌, ◌≤◌, ◌↔◌, IsTrue};
ghost use Rattle.om_subsets.specs.Subsets.{IsMember};
ghost use Rattle.om_matroid.specs.Bases.{IsExchange, IsLeastExchange};
ghost use Rattle.om_chirotope.specs.ThreeTerm.{IsBasis};

use super::search::is_basis;
use om_chirotope::Chirotope;
use om_subsets::Subset;

/// Whether f is in c and not in b, and exchanging e for f in b gives a basis.
fn is_exchange(chi: &Chirotope, b: Subset, c: Subset, e: u8, f: u8) -> bool
    requires b { b.n ≡ chi.now.elements }
    requires c { c.n ≡ chi.now.elements }
    requires e_low { 1 ≤ e }
    requires e_high { e ≤ chi.now.elements }
    requires f_low { 1 ≤ f }
    requires f_high { f ≤ chi.now.elements }
    ensures { IsTrue result ↔ IsExchange chi.now b.elements c.elements e f }
{
    c.has(f) && !b.has(f) && is_basis(chi, b.without(e).with(f))
}

/// The least f in c and not in b such that exchanging e for f in b gives a basis. b and c are bases, and e is in b
/// and not in c; then there is such an f. The call allocates no memory.
///
/// Source: Björner, Las Vergnas, Sturmfels, White and Ziegler, *Oriented Matroids*, chapter 3.
pub fn exchange(chi: &Chirotope, b: Subset, c: Subset, e: u8) -> u8
    requires b_n { b.n ≡ chi.now.elements }
    requires c_n { c.n ≡ chi.now.elements }
    requires b_basis { IsBasis chi.now b.elements }
    requires c_basis { IsBasis chi.now c.elements }
    requires inside { IsMember e b.elements }
    requires outside { IsMember e c.elements → ⊥ }
    ensures { IsLeastExchange chi.now b.elements c.elements e result }
{
    // by exchange of bases, some element of c can take the place of e
    (1..chi.elements() + 1)
        .find(|f| is_exchange(chi, b, c, e, *f))
        .unwrap()
}
