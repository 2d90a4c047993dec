//! The law of existence. It is a function that does nothing: its contract is the law.

ghost use Rattle.std.specs.Prelude.{ℕ, List};
ghost use Rattle.om_existence.specs.Possible.{IsPossible};
ghost use Rattle.om_existence.specs.Existence.{HasAnswer};

/// For all words and all bytes, it is absurd that they mean no answer.
pub fn every_input_has_an_answer()
    ensures { (words : List (List ℕ)) (bytes : List ℕ) → IsPossible (HasAnswer words bytes) }
{}
