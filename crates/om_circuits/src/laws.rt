//! What the definitions of the contracts mean together.

ghost use Rattle.std.specs.Prelude.{◌≡◌, List};
ghost use Rattle.om_signs.specs.declared.sign.Sign.{Sign};
ghost use Rattle.om_circuits.specs.declared.set_refused.SetRefused.{SetRefused};
ghost use Rattle.om_circuits.specs.Instances.{IsFirstViolated};

/// A list of sign vectors has at most one first violated instance.
pub fn one_first_instance()
    ensures { (members : List (List Sign)) (a b : SetRefused) → IsFirstViolated members a → IsFirstViolated members b
        → a ≡ b }
{}
