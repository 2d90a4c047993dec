//! Short numbers, whose products fit without a test.

ghost use Rattle.std.specs.Prelude.{◌↔◌, IsTrue, All};
ghost use Rattle.om_rows.specs.Short.{IsShort};

/// Whether a number fits 64 bits. The product of two such numbers fits 128 bits, and so does the difference of two
/// such products.
pub fn is_short(z: i128) -> bool
    ensures { IsTrue result ↔ IsShort z }
{
    -(1 << 63) <= z && z < 1 << 63
}

/// Whether all numbers fit 64 bits.
pub fn are_short(numbers: &[i128]) -> bool
    ensures { IsTrue result ↔ All IsShort numbers.now }
{
    numbers.iter().all(|z| is_short(*z))
}
