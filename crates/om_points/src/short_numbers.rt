//! Numbers that are coordinates of short vectors.

ghost use Rattle.std.specs.Prelude.{◌≡◌, ◌<◌, pos, unsigned_abs, cond};
ghost use Rattle.om_points.specs.ShortVectors.{IsShort};

/// The absolute value of a short number.
pub fn size(x: i32) -> i32
    requires { IsShort x }
    ensures { pos (unsigned_abs x) ≡ result }
{
    if x < 0 { -x } else { x }
}

/// The first of two short numbers if `first` is true, and else the second.
pub fn choice(first: bool, a: i32, b: i32) -> i32
    requires a { IsShort a }
    requires b { IsShort b }
    ensures value { result ≡ cond first a b }
    ensures size { IsShort result }
{
    if first { a } else { b }
}
