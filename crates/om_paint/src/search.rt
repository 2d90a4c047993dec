//! The lexicographically first circuits and cocircuits of classes of sign vectors.

ghost use Rattle.std.specs.Prelude.{ℕ, ◌≡◌, ◌<◌, ◌↔◌, IsTrue, None, get_or, length};
ghost use Rattle.om_denotation.specs.Circuits.{IsCircuitOfChirotope, IsCocircuitOfChirotope};
ghost use Rattle.om_paint.specs.Paintings.{IsFirstIfAny, IsEarlierOf, ComesBefore};

use super::classes::{CLASSES, Classes, Firsts};
use om_chirotope::Chirotope;
use om_signs::SignVec;
use om_subsets::Subset;

/// The first circuit of each class, if it has one. The call allocates no memory.
pub fn first_circuits<C: Classes>(chi: &Chirotope, classes: &C) -> Firsts
    requires valid { C.valid classes.now }
    requires elements { C.elements classes.now ≡ chi.now.elements }
    ensures { (i : ℕ) → i < CLASSES
        → IsFirstIfAny (λ X. IsCircuitOfChirotope chi.now X × C.holds classes.now i X) (get_or result i None) }
{
    let mut firsts = [None; CLASSES];
    for s in Subset::all(chi.rank() + 1, chi.elements()) {
        let v = chi.circuit_of(s);
        let negative = v.neg();
        meet(&mut firsts, classes, v);
        meet(&mut firsts, classes, negative);
    }
    firsts
}

/// The first cocircuit of each class, if it has one. The call allocates no memory.
pub fn first_cocircuits<C: Classes>(chi: &Chirotope, classes: &C) -> Firsts
    requires valid { C.valid classes.now }
    requires elements { C.elements classes.now ≡ chi.now.elements }
    ensures { (i : ℕ) → i < CLASSES
        → IsFirstIfAny (λ X. IsCocircuitOfChirotope chi.now X × C.holds classes.now i X) (get_or result i None) }
{
    let mut firsts = [None; CLASSES];
    let rank = chi.rank();
    if rank == 0 {
        return firsts;
    }
    for a in Subset::all(rank - 1, chi.elements()) {
        let u = chi.cocircuit_of(a);
        let negative = u.neg();
        meet(&mut firsts, classes, u);
        meet(&mut firsts, classes, negative);
    }
    firsts
}

/// Puts a nonzero vector into the place of its class, if it has one, unless an earlier vector is there.
fn meet<C: Classes>(firsts: &mut Firsts, classes: &C, x: SignVec)
    requires valid { C.valid classes.now }
    requires size { length x ≡ C.elements classes.now }
    ensures { (i : ℕ) → i < CLASSES
        → IsEarlierOf (C.holds classes.now i) (get_or firsts.old i None) x (get_or firsts.new i None) }
{
    if x.support() == 0 {
        return;
    }
    if let Some(i) = classes.class_of(x) {
        if is_earlier(x, firsts[i]) {
            firsts[i] = Some(x);
        }
    }
}

/// Whether a vector comes before the first one so far, or there is none yet.
fn is_earlier(x: SignVec, first: Option<SignVec>) -> bool
    ensures { IsTrue result ↔ ComesBefore x first }
{
    match first {
        Some(y) => x < y,
        None => true,
    }
}
