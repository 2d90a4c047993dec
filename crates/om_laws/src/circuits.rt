//! Circuits and cocircuits of a chirotope.

ghost use Rattle.std.specs.Prelude.{◌≡◌, ◌⊎◌, List, ℕ};
ghost use Rattle.om_signs.specs.declared.sign.Sign.{Sign};
ghost use Rattle.om_laws.specs.Vectors.{SignVector, Orthogonal, composition};
ghost use Rattle.om_signs.specs.Sign.{opposite};
ghost use Rattle.om_laws.specs.Signs.{IsNonzero};
ghost use Rattle.om_laws.specs.Axioms.{AreSeparatedAt, IsFromEither};
ghost use Rattle.om_laws.specs.Chirotope.{IsChirotope};
ghost use Rattle.om_laws.specs.Circuits.{IsCircuit, IsCocircuit};
ghost use Rattle.om_laws.specs.Members.{IsMember};
ghost use Rattle.om_laws.specs.Colours.{Colour, IsColoured, SomeCircuit, SomeCocircuit};

/// Each circuit is orthogonal to each cocircuit.
pub fn orthogonality()
    ensures { (E : List ℕ) (chi : List ℕ → Sign) → IsChirotope E chi → (X Y : SignVector) → IsCircuit E chi X
        → IsCocircuit chi Y → Orthogonal X Y }
{}

/// The painting lemma. Let each element be red, green, black or white, and let e be red or green. Then exactly one of
/// two things exists. One is a circuit that is nonzero at e, nonnegative on red, nonpositive on green and zero on
/// white. The other is a cocircuit that is nonzero at e, nonnegative on red, nonpositive on green and zero on black.
pub fn painting()
    ensures one { (E : List ℕ) (chi : List ℕ → Sign) → IsChirotope E chi → (c : ℕ → Colour) (e : ℕ) → IsMember e E
        → IsColoured (c e) → ((f : ℕ) → IsColoured (c f) → IsMember f E) → SomeCircuit (IsCircuit E chi) c e
        ⊎ SomeCocircuit (IsCocircuit chi) c e }
    ensures only { (E : List ℕ) (chi : List ℕ → Sign) → IsChirotope E chi → (c : ℕ → Colour) (e : ℕ) → IsColoured (c e)
        → SomeCircuit (IsCircuit E chi) c e → SomeCocircuit (IsCocircuit chi) c e → ⊥ }
{}

/// Strong elimination, for two circuits or two cocircuits that are opposite at e, and an element h of one of their
/// supports at which they aren't opposite. Some circuit or cocircuit is zero at e and has at h the sign of their
/// composition. Elsewhere it is zero or has the sign of one of them.
pub fn strong_elimination()
    ensures circuits { (E : List ℕ) (chi : List ℕ → Sign) → IsChirotope E chi → (X Y : SignVector) → IsCircuit E chi X
        → IsCircuit E chi Y → (e h : ℕ) → AreSeparatedAt X Y e → (X h ≡ opposite (Y h) → ⊥)
        → IsNonzero (composition X Y h) → (Z : SignVector) × IsCircuit E chi Z × (Z e ≡ Sign.Zero)
        × (Z h ≡ composition X Y h) × IsFromEither X Y Z }
    ensures cocircuits { (E : List ℕ) (chi : List ℕ → Sign) → IsChirotope E chi → (X Y : SignVector) → IsCocircuit chi X
        → IsCocircuit chi Y → (e h : ℕ) → AreSeparatedAt X Y e → (X h ≡ opposite (Y h) → ⊥)
        → IsNonzero (composition X Y h) → (Z : SignVector) × IsCocircuit chi Z × (Z e ≡ Sign.Zero)
        × (Z h ≡ composition X Y h) × IsFromEither X Y Z }
{}
