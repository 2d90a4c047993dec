//! Orthogonality of sign vectors.

ghost use Rattle.om_laws.specs.Vectors.{SignVector, Orthogonal, composition, negated};

/// Composition keeps orthogonality: if X and Y are orthogonal to Z, so is the composition of X and Y.
pub fn composition_keeps_orthogonality()
    ensures { (X Y Z : SignVector) → Orthogonal X Z → Orthogonal Y Z → Orthogonal (composition X Y) Z }
{}

/// Orthogonality is symmetric.
pub fn orthogonality_is_symmetric()
    ensures { (X Y : SignVector) → Orthogonal X Y → Orthogonal Y X }
{}

/// Negation keeps orthogonality: if X is orthogonal to Y, so is the negative of X.
pub fn negation_keeps_orthogonality()
    ensures { (X Y : SignVector) → Orthogonal X Y → Orthogonal (negated X) Y }
{}
