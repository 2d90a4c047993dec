//! The triple product of three vectors.

ghost use Rattle.std.specs.Prelude.{◌≡◌, ◌≤◌, ◌-ℤ◌, ◌*ℤ◌, ◌^◌, unsigned_abs};
ghost use Rattle.om_vectors.specs.WholeVectors.{triple_product};
ghost use Rattle.om_signs.specs.Coordinates.{IsCoordinate};

use super::vector::Vector;

/// The triple product of three vectors, which is their determinant. It is exact:
/// `ax*by*cz - ax*bz*cy + ay*bz*cx - ay*bx*cz + az*bx*cy - az*by*cx`.
///
/// Source: Björner, Las Vergnas, Sturmfels, White and Ziegler, *Oriented Matroids*, chapter 1.
pub fn triple(a: Vector, b: Vector, c: Vector) -> i128
    ensures { result ≡ triple_product a b c }
{
    let (bx, by, bz) = (b.x(), b.y(), b.z());
    let (cx, cy, cz) = (c.x(), c.y(), c.z());
    term(a.x(), by, cz, bz, cy) + term(a.y(), bz, cx, bx, cz) + term(a.z(), bx, cy, by, cx)
}

/// A coordinate times the difference of two products of coordinates.
fn term(x: i64, a: i64, d: i64, b: i64, c: i64) -> i128
    requires x { IsCoordinate x }
    requires a { IsCoordinate a }
    requires d { IsCoordinate d }
    requires b { IsCoordinate b }
    requires c { IsCoordinate c }
    ensures value { result ≡ x *ℤ (a *ℤ d -ℤ b *ℤ c) }
    ensures size { unsigned_abs result ≤ 2 ^ 121 }
{
    x as i128 * (a as i128 * d as i128 - b as i128 * c as i128)
}
