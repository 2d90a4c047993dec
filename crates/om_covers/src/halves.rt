//! Which signatures are tried: one of each and its negative.

ghost use Rattle.std.specs.Prelude.{◌≡◌, ◌≢◌, ◌≤◌, ◌<◌, ◌↔◌, length, IsTrue, All, MatchOption};
ghost use Rattle.om_signs.specs.SignVec.{at};
ghost use Rattle.om_subsets.specs.Subsets.{choose};
ghost use Rattle.om_laws.specs.Sorting.{IsElement};
ghost use Rattle.om_chirotope.specs.Map.{IsLedBy};
ghost use Rattle.om_localize.specs.Circles.{IsZeroOn, signs_on_circle};
ghost use Rattle.om_covers.specs.Covers.{IsSimpleHalf, IsUniformHalf, AreZeroBelow};

use om_localize::Signature;
use om_signs::{MAX_ELEMENTS, Sign};
use om_subsets::Subset;

/// Whether the first nonzero sign of a signature is minus, and for each of the elements 1 to n the sign of some pair
/// with it isn't 0. The signature is one of a chirotope of rank 3 on n elements, fewer than [`MAX_ELEMENTS`].
pub fn is_simple_half(n: u8, signature: Signature) -> bool
    requires room { n < MAX_ELEMENTS }
    requires size { length signature ≡ choose n 2 }
    ensures { IsTrue result ↔ IsSimpleHalf n signature }
{
    if !is_led_by_minus(signature) {
        return false;
    }
    for f in 1..n + 1 {
        if is_zero_with(n, signature, f) {
            return false;
        }
    }
    true
}

/// Whether a signature begins with minus and has no 0.
pub fn is_uniform_half(signature: Signature) -> bool
    ensures { IsTrue result ↔ IsUniformHalf signature }
{
    is_led_by_minus(signature) && has_no_zero(signature)
}

/// Whether no sign is 0.
fn has_no_zero(signature: Signature) -> bool
    ensures { IsTrue result ↔ All (λ s. s ≢ Sign.Zero) signature }
{
    (0..signature.len()).all(|i| signature.at(i) != Sign::Zero)
}

/// The index of the first sign that isn't 0, or None if all are.
fn first_nonzero(signature: Signature) -> Option<u8>
    ensures { MatchOption result (AreZeroBelow signature (length signature)) (λ i. (i < length signature)
        × (at signature i ≢ Sign.Zero) × AreZeroBelow signature i) }
{
    (0..signature.len()).find(|i| signature.at(*i) != Sign::Zero)
}

/// Whether the first nonzero sign is minus.
fn is_led_by_minus(signature: Signature) -> bool
    ensures { IsTrue result ↔ IsLedBy Sign.Minus signature }
{
    match first_nonzero(signature) {
        Some(i) => signature.at(i) == Sign::Minus,
        None => false,
    }
}

/// Whether the signs of all pairs with f are 0.
fn is_zero_with(n: u8, signature: Signature, f: u8) -> bool
    requires room { n < MAX_ELEMENTS }
    requires size { length signature ≡ choose n 2 }
    requires element { IsElement n f }
    ensures { IsTrue result ↔ IsZeroOn (signs_on_circle n signature f) }
{
    for g in 1..n + 1 {
        if g != f && pair_sign(n, signature, f, g) != Sign::Zero {
            return false;
        }
    }
    true
}

/// The sign of a signature at the pair of two elements, in their order in the list of all.
fn pair_sign(n: u8, signature: Signature, f: u8, g: u8) -> Sign
    requires room { n < MAX_ELEMENTS }
    requires size { length signature ≡ choose n 2 }
    requires first { IsElement n f }
    requires second { IsElement n g }
    requires apart { f ≢ g }
    ensures { result ≡ Sign.Zero ↔ signs_on_circle n signature f g ≡ Sign.Zero }
{
    let pair = Subset::first(0, n).with(f).with(g);
    signature.at(pair.rank() as u8)
}
