//! What the definitions in the crate's contracts mean. Each law is a function that does nothing: its contract is
//! the law.

ghost use Rattle.std.specs.Prelude.{◌≡◌, ◌<◌, true, false, List};
ghost use Rattle.om_chirotope.specs.Map.{SignMap};
ghost use Rattle.om_vectors.specs.WholeVectors.{WholeVector};
ghost use Rattle.om_vectors.specs.Realizations.{Realizes};
ghost use Rattle.om_grassmann.specs.declared.statement.Statement.{Statement};
ghost use Rattle.om_grassmann.specs.Statements.{IsLawful};
ghost use Rattle.om_certificate.specs.declared.entry.Entry.{Entry};
ghost use Rattle.om_certificate.specs.declared.weight.Weight.{Weight};
ghost use Rattle.om_certificate.specs.declared.evidence.Evidence.{Evidence};
ghost use Rattle.om_certificate.specs.declared.cert_refused.CertRefused.{CertRefused};
ghost use Rattle.om_certificate.specs.BracketSizes.{term_size};
ghost use Rattle.om_certificate.specs.Certificates.{IsCertificate};
ghost use Rattle.om_certificate.specs.Weights.{AreWeights};
ghost use Rattle.om_certificate.specs.Validity.{IsValid, IsUnrealizable, HasNoCertificate};
ghost use Rattle.om_certificate.specs.Refusals.{IsRefusal};

/// What a lawful statement says about vectors that realize the map. If the statement is strict, the product of the
/// absolute values of the two brackets of the small side is smaller than that of the big side. If it is an
/// equation, the two products are equal. None of the brackets is 0.
///
/// Source: Bokowski and Richter-Gebert, *On the finding of final polynomials*, 1990.
pub fn statements_hold_of_vectors()
    ensures strict { (m : SignMap) (vs : List WholeVector) (st : Statement) → Realizes vs m → IsLawful m st
        → st.strict ≡ true → term_size vs st st.small < term_size vs st st.big }
    ensures equation { (m : SignMap) (vs : List WholeVector) (st : Statement) → Realizes vs m → IsLawful m st
        → st.strict ≡ false → term_size vs st st.small ≡ term_size vs st st.big }
    ensures nonzero { (m : SignMap) (vs : List WholeVector) (st : Statement) → Realizes vs m → IsLawful m st
        → 0 < term_size vs st st.small }
{}

/// No list of whole-number vectors, of any size, realizes a map that has a certificate. With such vectors, the
/// product of the sizes of the brackets on the small sides would be smaller than that on the big sides. But both
/// are products of the same brackets.
///
/// Source: Bokowski and Richter-Gebert, *On the finding of final polynomials*, 1990.
pub fn certificates_exclude_vectors()
    ensures { (m : SignMap) (es : List Entry) → IsCertificate m es → IsUnrealizable m }
{}

/// A map that has weights has no certificate. With one, the sum of the weights of the brackets on the small sides
/// would be smaller than that on the big sides. But both are sums over the same brackets.
///
/// Source: Bokowski and Richter-Gebert, *On the finding of final polynomials*, 1990.
pub fn weights_exclude_certificates()
    ensures { (m : SignMap) (ws : List Weight) → AreWeights m ws → HasNoCertificate m }
{}

/// Evidence is refused for at most one reason, and for none if it is valid.
pub fn one_refusal()
    ensures one { (m : SignMap) (evidence : Evidence) (why other : CertRefused) → IsRefusal m evidence why
        → IsRefusal m evidence other → why ≡ other }
    ensures none { (m : SignMap) (evidence : Evidence) (why : CertRefused) → IsRefusal m evidence why
        → IsValid m evidence → ⊥ }
{}
