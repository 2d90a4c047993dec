//! What the definitions of the contracts mean together.

ghost use Rattle.std.specs.Prelude.{◌≡◌, List};
ghost use Rattle.om_signs.specs.declared.sign.Sign.{Sign};
ghost use Rattle.om_covectors.specs.declared.cov_refused.CovRefused.{CovRefused};
ghost use Rattle.om_covectors.specs.Instances.{IsFirstViolatedCovectorAxiom};

/// A list of sign vectors has at most one first violated instance.
pub fn one_first_instance()
    ensures { (members : List (List Sign)) (a b : CovRefused) → IsFirstViolatedCovectorAxiom members a
        → IsFirstViolatedCovectorAxiom members b → a ≡ b }
{}
