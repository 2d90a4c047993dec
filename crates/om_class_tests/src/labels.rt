//! Labels of simple chirotopes: the images under them are equal for isomorphic ones, and differ for others.

ghost use Rattle.std.specs.Prelude.{◌≡◌, ◌≤◌, length, IfOk, IfSome};

use super::images::{negative, plain};
use om_chirotope::Chirotope;
use om_label::label;
use om_samples::{SampleError, chirotope_of};
use om_signs::{MAX_ELEMENTS, NoMemory, Sign};
use om_symmetry::SignedPermutation;
use std::alloc::Global;

/// The number of elements and the signs of one chirotope of each class of simple oriented matroids of rank 3 on 3 to 6
/// elements: 1, 2, 4 and 17 classes, from `catalogue/realizable-8.claims.gz`.
pub(crate) const CLASSES: [(u8, &str); 24] = [
    (3, "+"),
    (4, "+---"),
    (4, "+--0"),
    (5, "+---------"),
    (5, "+-------0+"),
    (5, "+----0-0--"),
    (5, "+-----0000"),
    (6, "+-------------------"),
    (6, "+------------------0"),
    (6, "+------------------+"),
    (6, "+----------------0++"),
    (6, "+--------------0-0++"),
    (6, "+--------------0-+++"),
    (6, "+--------------+-+++"),
    (6, "+-----------0------0"),
    (6, "+-----------+-------"),
    (6, "+--------0--0-------"),
    (6, "+------------000+++0"),
    (6, "+--------0---0--+0--"),
    (6, "+--------0--00--+---"),
    (6, "+-----0------0--+++-"),
    (6, "+-----0------000+++0"),
    (6, "+-----00---0--0+-+++"),
    (6, "+---------0000000000"),
];

/// How many images of each chirotope are labelled.
const IMAGES: usize = 12;

/// The number of places for signed elements.
const ROOM: usize = MAX_ELEMENTS as usize;

/// The signed permutation under which each element becomes the one before it, and the first the negative of the last.
fn turn(n: u8) -> Option<SignedPermutation>
    requires { n ≤ MAX_ELEMENTS }
    ensures { IfSome result (λ w. length w ≡ n) }
{
    let mut entries = [negative(1); ROOM];
    for i in 1..n {
        entries[i as usize - 1] = plain(i + 1);
    }
    SignedPermutation::from_entries(&entries[..n as usize])
}

/// The signed permutation that exchanges the first two elements.
fn exchange(n: u8) -> Option<SignedPermutation>
    requires { n ≤ MAX_ELEMENTS }
    ensures { IfSome result (λ w. length w ≡ n) }
{
    let mut entries = [plain(1); ROOM];
    for i in 1..n + 1 {
        entries[i as usize - 1] = plain(if i <= 2 { 3 - i } else { i });
    }
    SignedPermutation::from_entries(&entries[..n as usize])
}

/// The image of a chirotope under its label.
fn normal_form(alloc: Global, chi: &Chirotope) -> Result<Chirotope, NoMemory>
    requires { chi.now.rank ≡ 3 }
{
    label(chi).act(alloc, chi)
}

/// The product of the turn, the exchange, and then ten more of the two. The bits of a number say which.
#[tactic(auto, using(om_symmetry::proofs::Products::length_product))]
fn product(turn: &SignedPermutation, exchange: &SignedPermutation, drawn: u32) -> SignedPermutation
    requires { length exchange.now ≡ length turn.now }
    ensures { length result ≡ length turn.now }
{
    let mut w = turn.then(exchange);
    for step in 0..10u8 {
        w = if drawn >> step & 1 == 0 {
            w.then(turn)
        } else {
            w.then(exchange)
        };
    }
    w
}

/// Whether the images of a chirotope under some products of two signed permutations have these signs under their
/// labels.
fn have_form(
    alloc: Global,
    chi: &Chirotope,
    turn: &SignedPermutation,
    exchange: &SignedPermutation,
    signs: &[Sign],
) -> Result<bool, SampleError>
    requires rank { chi.now.rank ≡ 3 }
    requires turn { length turn.now ≡ chi.now.elements }
    requires exchange { length exchange.now ≡ chi.now.elements }
{
    let mut drawn = 1u32;
    for _image in 0..IMAGES {
        drawn = drawn.wrapping_mul(1_664_525).wrapping_add(1_013_904_223);
        let w = product(turn, exchange, drawn >> 16);
        let form = normal_form(alloc, &w.act(alloc, chi)?)?;
        if form.signs() != signs {
            return Ok(false);
        }
    }
    Ok(true)
}

/// Whether a chirotope, its negative and images of it have the same image under their labels.
fn is_shared(alloc: Global, found: Result<Chirotope, SampleError>) -> Result<bool, SampleError>
    requires { IfOk found (λ c. c.rank ≡ 3) }
{
    let chi = found?;
    let n = chi.elements();
    let form = normal_form(alloc, &chi)?;
    let opposite = normal_form(alloc, &chi.copy()?.negate())?;
    if opposite.signs() != form.signs() {
        return Ok(false);
    }
    let Some(turn) = turn(n) else {
        return Ok(false);
    };
    let Some(exchange) = exchange(n) else {
        return Ok(false);
    };
    have_form(alloc, &chi, &turn, &exchange, form.signs())
}

// Images of one chirotope have one normal form.
#[test]
fn within_classes(rt: HostRuntime) {
    let alloc = rt.alloc();
    for (n, text) in CLASSES {
        let shared = is_shared(alloc, chirotope_of(&rt, alloc, 3, n, text));
        assert!(rt; shared == Ok(true), "at {text}");
    }
}

/// Whether two chirotopes have different images under their labels.
fn are_apart(
    alloc: Global,
    one: Result<Chirotope, SampleError>,
    other: Result<Chirotope, SampleError>,
) -> Result<bool, SampleError>
    requires one { IfOk one (λ c. c.rank ≡ 3) }
    requires other { IfOk other (λ c. c.rank ≡ 3) }
{
    let one = normal_form(alloc, &one?)?;
    let other = normal_form(alloc, &other?)?;
    Ok(one.signs() != other.signs())
}

// Chirotopes of different classes have different normal forms.
#[test]
fn between_classes(rt: HostRuntime) {
    let alloc = rt.alloc();
    for (i, &(n, text)) in CLASSES.iter().enumerate() {
        for &(m, other) in &CLASSES[..i] {
            let apart = are_apart(
                alloc,
                chirotope_of(&rt, alloc, 3, n, text),
                chirotope_of(&rt, alloc, 3, m, other),
            );
            assert!(rt; apart == Ok(true), "at {text} and {other}");
        }
    }
}
