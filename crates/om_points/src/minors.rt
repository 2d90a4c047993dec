//! Minors of short vectors, and sums and products of them.

ghost use Rattle.std.specs.Prelude.{◌≡◌, ◌≤◌, ◌*◌, ◌+ℤ◌, ◌*ℤ◌, ◌-ℤ◌, neg_ℤ, unsigned_abs};
ghost use Rattle.om_points.specs.Forms.{IsCoefficient, IsMinor, IsTerm};
ghost use Rattle.om_points.specs.ShortVectors.{IsShort};

use om_signs::MAX_BOX;

/// The negative of a number.
pub fn opposite(z: i64) -> i64
    requires { IsMinor z }
    ensures value { result ≡ neg_ℤ z }
    ensures size { IsMinor result }
{
    -z
}

/// The sum of two products of minors.
pub fn mixed(a: i64, p: i64, b: i64, q: i64) -> i64
    requires a { IsMinor a }
    requires p { IsMinor p }
    requires b { IsMinor b }
    requires q { IsMinor q }
    ensures value { result ≡ a *ℤ p +ℤ b *ℤ q }
    ensures size { IsCoefficient result }
{
    a * p + b * q
}

/// The difference of two products.
pub fn minor(a: i32, d: i32, b: i32, c: i32) -> i64
    requires a { IsShort a }
    requires b { IsShort b }
    requires c { IsShort c }
    requires d { IsShort d }
    ensures value { result ≡ a *ℤ d -ℤ b *ℤ c }
    ensures size { IsMinor result }
{
    times(a, d) - times(b, c)
}

/// The product of two coordinates.
fn times(x: i32, y: i32) -> i64
    requires x { IsShort x }
    requires y { IsShort y }
    ensures value { result ≡ x *ℤ y }
    ensures size { unsigned_abs result ≤ MAX_BOX * MAX_BOX }
{
    x as i64 * y as i64
}

/// The product of a coefficient and a coordinate.
pub fn term(a: i64, x: i32) -> i64
    requires a { IsCoefficient a }
    requires x { IsShort x }
    ensures value { result ≡ a *ℤ x }
    ensures size { IsTerm result }
{
    a * x as i64
}
