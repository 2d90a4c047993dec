//! Bases of a chirotope: the tuples with a nonzero value.

ghost use Rattle.std.specs.Prelude.{◌≡◌, List, ℕ, [], ◌∷◌, ◌++◌, length};
ghost use Rattle.om_signs.specs.declared.sign.Sign.{Sign};
ghost use Rattle.om_laws.specs.Members.{IsMember};
ghost use Rattle.om_laws.specs.Relations.{around, along};
ghost use Rattle.om_laws.specs.Chirotope.{IsChirotope};
ghost use Rattle.om_laws.specs.Bases.{IsBase, HasExchange, SymmetricExchange, IsFundamentalCircuit};
ghost use Rattle.om_laws.specs.Bases.{IsFundamentalCocircuit};

/// Exchange of bases: for an element e of one basis and a second basis without e, some element of the second can
/// take the place of e in the first. Symmetric exchange: some element can, while e takes its place in the second.
pub fn exchange()
    ensures one { (E : List ℕ) (chi : List ℕ → Sign) → IsChirotope E chi → HasExchange chi }
    ensures symmetric { (E : List ℕ) (chi : List ℕ → Sign) → IsChirotope E chi → (u : List ℕ) (e : ℕ) (v c : List ℕ)
        → IsBase chi (u ++ e ∷ v) → IsBase chi c → (IsMember e c → ⊥) → SymmetricExchange chi u e v c }
{}

/// The fundamental circuit of a basis and an element off it is the vector around the basis followed by the element.
pub fn fundamental_circuit()
    ensures { (E : List ℕ) (chi : List ℕ → Sign) → IsChirotope E chi → (t : List ℕ) (e : ℕ) → IsMember e E
        → IsBase chi t → (IsMember e t → ⊥) → IsFundamentalCircuit E chi t e (around chi (t ++ e ∷ [])) }
{}

/// The fundamental cocircuit of a basis and one of its elements is the vector along the other elements.
pub fn fundamental_cocircuit()
    ensures { (E : List ℕ) (chi : List ℕ → Sign) → IsChirotope E chi → (u : List ℕ) (e : ℕ) (v : List ℕ)
        → IsBase chi (u ++ e ∷ v) → IsFundamentalCocircuit chi u e v (along chi (u ++ v)) }
{}

/// All bases have equally many elements.
pub fn bases_have_one_size()
    ensures { (E : List ℕ) (chi : List ℕ → Sign) → IsChirotope E chi → (s t : List ℕ) → IsBase chi s → IsBase chi t
        → length s ≡ length t }
{}
