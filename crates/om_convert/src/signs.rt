//! The sign of a set from those of the sets before it.

ghost use Rattle.std.specs.Prelude.{ℕ, ◌≡◌, ◌≢◌, ◌≤◌, ◌<◌, IfSome, IfNone, length};
ghost use Rattle.om_signs.specs.SignVec.{at, at_element};
ghost use Rattle.om_subsets.specs.Subsets.{IsSubsetFrom, count_above, rank_of};
ghost use Rattle.om_chirotope.specs.Map.{parity_sign};
ghost use Rattle.om_members.specs.Listings.{HaveLength};
ghost use Rattle.om_convert.specs.Hitting.{MeetsEach, AreFirstSigns, IsNextSign, carried_sign, IsCarried};
ghost use Rattle.om_convert.specs.Hitting.{HasNoneCarried};

use super::hitting::missed_vector;
use om_signs::{Sign, SignVec};
use om_subsets::Subset;

/// The power of -1 whose exponent is the number of elements of a set above e. The element e is from 1 to n.
fn parity_above(a: Subset, e: u8) -> Sign
    requires low { 1 ≤ e }
    requires high { e ≤ a.n }
    ensures { result ≡ parity_sign (count_above e a.elements) }
{
    if a.odd_after(e) {
        Sign::Minus
    } else {
        Sign::Plus
    }
}

/// The sign of the set a with e, from the sign of the set a with h, by a vector that is zero on a.
fn carried(a: Subset, e: u8, h: u8, y: SignVec, sign: Sign) -> Sign
    requires n { length y ≡ a.n }
    requires e_low { 1 ≤ e }
    requires e_high { e ≤ a.n }
    requires h_low { 1 ≤ h }
    requires h_high { h ≤ a.n }
    ensures { result ≡ carried_sign a.elements e h y sign }
{
    let parity = parity_above(a, e).times(parity_above(a, h));
    parity.times(y.get(e)).times(y.get(h)).times(sign)
}

/// An element below e at which a vector is nonzero, or None if there is none.
fn nonzero_below(y: SignVec, e: u8) -> Option<u8>
    requires { e ≤ length y }
    ensures none { IfNone result ((h : ℕ) → 1 ≤ h → h < e → at_element y h ≡ Sign.Zero) }
    ensures low { IfSome result (λ h. 1 ≤ h) }
    ensures high { IfSome result (λ h. h < e) }
    ensures nonzero { IfSome result (λ h. at_element y h ≢ Sign.Zero) }
{
    for h in 1..e {
        if y.get(h) != Sign::Zero {
            return Some(h);
        }
    }
    None
}

/// The sign of a set t, from that of an earlier set, which has a smaller element in place of e. None if e isn't in
/// t, or no vector carries a sign.
fn sign_over(vectors: &[SignVec], before: &[Sign], t: Subset, e: u8) -> Option<Sign>
    requires low { 1 ≤ e }
    requires high { e ≤ t.n }
    requires lengths { HaveLength t.n vectors.now }
    requires lawful { IsSubsetFrom 1 t.n t.elements }
    requires place { rank_of t.n t.elements ≡ length before.now }
    ensures none { IfNone result (HasNoneCarried vectors.now t.elements e) }
    ensures some { IfSome result (IsCarried t.n vectors.now before.now t.elements e) }
{
    if !t.has(e) {
        return None;
    }
    let a = t.without(e);
    let y = missed_vector(vectors, a)?;
    let h = nonzero_below(y, e)?;
    let other = a.with(h);
    Some(carried(a, e, h, y, before[other.rank() as usize]))
}

/// The sign of a set that meets every vector, from the signs of the sets before it. Suppose that `before` has the
/// first signs of the normal chirotope with these cocircuits. Then the result is the sign of this basis in it. The
/// greatest elements come first, since a smaller one most often takes their place.
fn sign_of_basis(vectors: &[SignVec], before: &[Sign], t: Subset) -> Sign
    requires lengths { HaveLength t.n vectors.now }
    requires place { rank_of t.n t.elements ≡ length before.now }
    requires basis { MeetsEach vectors.now t.elements }
    ensures { AreFirstSigns t.n (length t.elements) vectors.now before.now
        → IsNextSign t.n (length t.elements) vectors.now (length before.now) result }
{
    for e in (1..t.n() + 1).rev() {
        if let Some(sign) = sign_over(vectors, before, t, e) {
            return sign;
        }
    }
    Sign::Plus
}

/// The sign of a set, from the signs of the sets before it. Suppose that `before` has the first signs of the normal
/// chirotope with these cocircuits. Then the result is the sign of this set in it.
pub fn sign_of(vectors: &[SignVec], before: &[Sign], t: Subset) -> Sign
    requires lengths { HaveLength t.n vectors.now }
    requires lawful { IsSubsetFrom 1 t.n t.elements }
    requires place { rank_of t.n t.elements ≡ length before.now }
    ensures { AreFirstSigns t.n (length t.elements) vectors.now before.now
        → IsNextSign t.n (length t.elements) vectors.now (length before.now) result }
{
    match missed_vector(vectors, t) {
        Some(_) => Sign::Zero,
        None => sign_of_basis(vectors, before, t),
    }
}
