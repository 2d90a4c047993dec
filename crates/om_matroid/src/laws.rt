//! Laws of bases. Each law is a function that does nothing: its contract is the law.

ghost use Rattle.std.specs.Prelude.{ℕ, List, []};
ghost use Rattle.om_subsets.specs.Subsets.{IsMember, with_element, without_element};
ghost use Rattle.om_chirotope.specs.Map.{SignMap};
ghost use Rattle.om_chirotope.specs.Chirotope.{IsChirotope};
ghost use Rattle.om_matroid.specs.Bases.{IsIndependent, IsExchange};
ghost use Rattle.om_chirotope.specs.ThreeTerm.{IsBasis};

/// Exchange of bases. Let b and c be bases of a chirotope, and e an element of b that isn't in c. Then some element
/// f of c that isn't in b can take the place of e in b. Symmetric exchange: some such f can, while e takes the
/// place of f in c.
///
/// Source: Björner, Las Vergnas, Sturmfels, White and Ziegler, *Oriented Matroids*, chapter 3.
pub fn exchange_of_bases()
    ensures one { (m : SignMap) → IsChirotope m → (b c : List ℕ) (e : ℕ) → IsBasis m b → IsBasis m c → IsMember e b
        → (IsMember e c → ⊥)
        → (f : ℕ) × IsExchange m b c e f }
    ensures symmetric { (m : SignMap) → IsChirotope m → (b c : List ℕ) (e : ℕ) → IsBasis m b → IsBasis m c
        → IsMember e b → (IsMember e c → ⊥)
        → (f : ℕ) × IsExchange m b c e f × IsBasis m (with_element e (without_element f c)) }
{}

/// The empty set is independent in every chirotope: it is contained in some basis.
///
/// Source: Björner, Las Vergnas, Sturmfels, White and Ziegler, *Oriented Matroids*, chapter 3.
pub fn empty_set_is_independent()
    ensures { (m : SignMap) → IsChirotope m → IsIndependent m [] }
{}
