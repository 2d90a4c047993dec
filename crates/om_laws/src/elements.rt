//! Loops, coloops and parallel elements of a chirotope.

ghost use Rattle.std.specs.Prelude.{◌≡◌, ◌≢◌, List, ℕ};
ghost use Rattle.om_signs.specs.declared.sign.Sign.{Sign};
ghost use Rattle.om_signs.specs.Sign.{product};
ghost use Rattle.om_laws.specs.Signs.{IsNonzero};
ghost use Rattle.om_laws.specs.Members.{IsMember};
ghost use Rattle.om_laws.specs.Vectors.{SignVector};
ghost use Rattle.om_laws.specs.Chirotope.{IsChirotope};
ghost use Rattle.om_laws.specs.Circuits.{IsCircuit};
ghost use Rattle.om_laws.specs.Covectors.{IsCovector};
ghost use Rattle.om_laws.specs.Parallel.{IsLoop, IsColoop, AreParallel};

/// All covectors are zero at a loop, and all circuits are zero at a coloop.
pub fn loops_and_coloops()
    ensures at_loop { (E : List ℕ) (chi : List ℕ → Sign) → IsChirotope E chi → (e : ℕ) → IsMember e E → IsLoop chi e
        → (X : SignVector) → IsCovector E chi X → X e ≡ Sign.Zero }
    ensures at_coloop { (E : List ℕ) (chi : List ℕ → Sign) → IsChirotope E chi → (e : ℕ) → IsColoop chi e
        → (X : SignVector) → IsCircuit E chi X → X e ≡ Sign.Zero }
{}

/// At two parallel elements the signs of every covector are equal, or the signs of every covector are opposite.
pub fn parallel_elements()
    ensures { (E : List ℕ) (chi : List ℕ → Sign) → IsChirotope E chi → (e h : ℕ) → e ≢ h → AreParallel chi e h
        → IsMember h E → (s : Sign) × IsNonzero s × ((X : SignVector) → IsCovector E chi X → X h ≡ product s (X e)) }
{}
