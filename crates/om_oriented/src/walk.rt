//! The sign vectors of one length, in lexicographic order.

ghost use Rattle.std.specs.Prelude.{◌≡◌, ◌+◌, ◌^◌, ◌≤◌, ◌↔◌, IsNone, IfSome, length, replicate};
ghost use Rattle.om_oriented.specs.Places.{base_three};

use om_signs::{MAX_PLACES, Sign, SignVec};

/// The first sign vector of a length: all its signs are minus.
pub fn least(length: u8) -> SignVec
    requires low { 1 ≤ length }
    requires high { length ≤ MAX_PLACES }
    ensures { result ≡ replicate length Sign.Minus }
{
    let mut x = SignVec::zero(length);
    for e in 1..length + 1 {
        x = x.set(e, Sign::Minus);
    }
    x
}

/// The next sign vector, or None if this is the last one of its length.
pub fn following(x: SignVec) -> Option<SignVec>
    ensures none { IsNone result ↔ (base_three x + 1 ≡ 3 ^ length x) }
    ensures size { IfSome result (λ y. length y ≡ length x) }
    ensures next { IfSome result (λ y. base_three y ≡ base_three x + 1) }
{
    let mut next = x;
    for e in (1..x.len() + 1).rev() {
        match x.get(e) {
            Sign::Minus => return Some(next.set(e, Sign::Zero)),
            Sign::Zero => return Some(next.set(e, Sign::Plus)),
            Sign::Plus => next = next.set(e, Sign::Minus),
        }
    }
    None
}
