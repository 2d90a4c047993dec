//! The covectors of a set of covectors.

ghost use Rattle.om_covectors.specs.CovectorSets.{IsCovectorSet};
ghost use Rattle.om_denotation.specs.Covectors.{IsCovectorOfCovectors};
ghost use Rattle.om_denotation.specs.CovectorLaws.{zero_of_covectors, negative_of_covectors};
ghost use Rattle.om_denotation.proofs.KindLaws.{composition_of_covectors, elimination_of_covectors};

use super::oriented::Oriented;
use om_covectors::Covectors;
use om_signs::SignVec;

/// The covectors are the members.
impl Oriented for Covectors {
    ghost is_covector = { IsCovectorOfCovectors };

    ghost elements = { λ c. c.elements };

    ghost valid = { λ c. IsCovectorSet c.elements c.members };

    ghost zero = { zero_of_covectors };

    ghost negative = { negative_of_covectors };

    ghost composition = { composition_of_covectors };

    ghost elimination = { elimination_of_covectors };

    fn elements(&self) -> u8 {
        Covectors::elements(self)
    }

    fn is_covector(&self, x: SignVec) -> bool {
        self.contains(x)
    }
}
