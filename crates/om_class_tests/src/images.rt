//! Signed permutations and images worked out by hand.

ghost use Rattle.std.specs.Prelude.{◌≡◌, IfOk, IfSome, length};

use om_chirotope::Chirotope;
use om_samples::{SampleError, chirotope_of, is_map};
use om_symmetry::{SignedElement, SignedPermutation};
use std::alloc::Global;
use std::process::Abort;

/// An element as it is.
pub const fn plain(element: u8) -> SignedElement {
    SignedElement {
        element,
        negated: false,
    }
}

/// The negative of an element.
pub const fn negative(element: u8) -> SignedElement {
    SignedElement {
        element,
        negated: true,
    }
}

/// Whether a signed permutation has these entries.
fn has_entries(w: &SignedPermutation, entries: &[SignedElement]) -> bool {
    let mut same = w.elements() as usize == entries.len();
    for i in 1..w.elements() + 1 {
        same = same && entries.get(i as usize - 1) == Some(&w.at(i));
    }
    same
}

/// Whether the image of a chirotope has the signs of a text.
fn has_image(alloc: Global, w: &SignedPermutation, chi: &Chirotope, text: &str) -> bool
    requires { length w.now ≡ chi.now.elements }
{
    match w.act(alloc, chi) {
        Ok(image) => is_map(&image.into_raw(), 2, 3, text),
        Err(_) => false,
    }
}

/// Asserts that the signed permutation 2, the negative of 1, and 3 has the inverse, the products, the lift and the
/// image of the chirotope of three vectors in turn that were worked out by hand.
fn turned<R: Abort>(rt: &R, alloc: Global, found: Result<Chirotope, SampleError>)
    requires { IfOk found (λ c. c.elements ≡ 3) }
{
    let chi = found.expect(rt, "a chirotope");
    let w = SignedPermutation::from_entries(&[plain(2), negative(1), plain(3)]).expect(
        rt,
        "a signed permutation",
    );
    let back = w.inverse();
    for (case, holds) in [
        (
            "inverse",
            has_entries(&back, &[negative(2), plain(1), plain(3)]),
        ),
        (
            "square",
            has_entries(&w.then(&w), &[negative(1), negative(2), plain(3)]),
        ),
        (
            "there and back",
            has_entries(&w.then(&back), &[plain(1), plain(2), plain(3)]),
        ),
        (
            "lift",
            has_entries(&w.lift(), &[plain(2), negative(1), plain(3), plain(4)]),
        ),
        ("image", has_image(alloc, &w, &chi, "++-")),
        (
            "image by the identity",
            has_image(alloc, &SignedPermutation::identity(3), &chi, "+++"),
        ),
    ] {
        assert!(rt; holds, "{case}");
    }
}

#[test]
fn of_three_vectors(rt: HostRuntime) {
    let alloc = rt.alloc();
    turned(&rt, alloc, chirotope_of(&rt, alloc, 2, 3, "+++"));
}

#[test]
fn refused_entries(rt: HostRuntime) {
    for (case, holds) in [
        (
            "an element twice",
            SignedPermutation::from_entries(&[plain(1), negative(1)]).is_none(),
        ),
        (
            "element 0",
            SignedPermutation::from_entries(&[plain(0)]).is_none(),
        ),
        (
            "an element left out",
            SignedPermutation::from_entries(&[plain(1), plain(3)]).is_none(),
        ),
        (
            "22 elements",
            SignedPermutation::from_entries(&[plain(1); 22]).is_none(),
        ),
        (
            "no elements",
            SignedPermutation::from_entries(&[]).is_some(),
        ),
    ] {
        assert!(rt; holds, "{case}");
    }
}
