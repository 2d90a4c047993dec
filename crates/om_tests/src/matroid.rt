//! Chirotopes with a loop, a coloop and parallel elements, and the lowest and the highest rank.

ghost use Rattle.std.specs.Prelude.{◌≡◌, ◌≤◌, ◌↔◌, IsTrue, IfOk};
ghost use Rattle.om_chirotope.specs.ThreeTerm.{IsBasis};

use super::helpers::hold;
use super::maps::PAPPUS;
use om_chirotope::Chirotope;
use om_matroid::{exchange, extend_to_basis, first_basis, is_coloop, is_loop, parallel, rank_of};
use om_samples::{SampleError, chirotope_of};
use om_signs::Sign;
use om_subsets::Subset;

/// The facts on a chirotope of four elements. They are the masks of the loops, of the coloops, and of the elements
/// parallel to each element; and the rank of each set, by its mask.
type Facts = (u32, u32, [u32; 4], [u8; 16]);

/// The facts computed from a chirotope of four elements.
fn facts(chi: &Chirotope) -> Facts
    requires { chi.now.elements ≡ 4 }
{
    let (mut loops, mut coloops) = (0, 0);
    let (mut parallels, mut ranks) = ([0; 4], [0; 16]);
    for e in 1..5u8 {
        if is_loop(chi, e) {
            loops |= 1u32 << (e - 1);
        }
        if is_coloop(chi, e) {
            coloops |= 1u32 << (e - 1);
        }
        for f in 1..5u8 {
            if parallel(chi, e, f) {
                parallels[e as usize - 1] |= 1u32 << (f - 1);
            }
        }
    }
    for mask in 0..16u32 {
        ranks[mask as usize] = rank_of(chi, Subset::from_mask(mask, 4));
    }
    (loops, coloops, parallels, ranks)
}

/// Whether there is a chirotope of four elements, and these are the facts on it.
fn has_facts(chi: Result<Chirotope, SampleError>, expected: Facts) -> bool
    requires { IfOk chi (λ c. c.elements ≡ 4) }
{
    match chi {
        Ok(chi) => facts(&chi) == expected,
        Err(_) => false,
    }
}

/// The bases are 13 and 23: 1 and 2 are parallel, 3 is a coloop, and 4 a loop, which is parallel to nothing, not even
/// to itself.
const PARALLEL: Facts = (
    0b1000,
    0b0100,
    [0b0011, 0b0011, 0b0100, 0],
    [0, 1, 1, 1, 1, 2, 2, 2, 0, 1, 1, 1, 1, 2, 2, 2],
);

/// The empty set is the only basis.
const LOOPS: Facts = (0b1111, 0, [0; 4], [0; 16]);

/// The set of all elements is the only basis.
const COLOOPS: Facts = (
    0,
    0b1111,
    [0b0001, 0b0010, 0b0100, 0b1000],
    [0, 1, 1, 2, 1, 2, 2, 3, 1, 2, 2, 3, 2, 3, 3, 4],
);

#[test]
fn four_elements(rt: HostRuntime) {
    let alloc = rt.alloc();
    hold(
        &rt,
        &[
            (
                "a loop, a coloop and a parallel pair",
                has_facts(chirotope_of(&rt, alloc, 2, 4, "0+0+00"), PARALLEL),
            ),
            (
                "four loops",
                has_facts(chirotope_of(&rt, alloc, 0, 4, "+"), LOOPS),
            ),
            (
                "four coloops",
                has_facts(chirotope_of(&rt, alloc, 4, 4, "+"), COLOOPS),
            ),
        ],
    );
}

/// Whether a set is a basis.
fn is_basis(chi: &Chirotope, b: Subset) -> bool
    requires { b.n ≡ chi.now.elements }
    ensures { IsTrue result ↔ IsBasis chi.now b.elements }
{
    b.size() == chi.rank() && chi.at(b) != Sign::Zero
}

/// The first basis that contains a set, if a given basis contains it.
fn extension(chi: &Chirotope, inside: Subset, basis: Subset) -> Option<Subset>
    requires inside { inside.n ≡ chi.now.elements }
    requires basis { basis.n ≡ chi.now.elements }
{
    if is_basis(chi, basis) && inside.is_part_of(basis) {
        Some(extend_to_basis(chi, inside))
    } else {
        None
    }
}

/// What can replace an element of a basis b, if it isn't in another basis c.
fn exchanged(chi: &Chirotope, b: Subset, c: Subset, e: u8) -> Option<u8>
    requires b { b.n ≡ chi.now.elements }
    requires c { c.n ≡ chi.now.elements }
    requires low { 1 ≤ e }
    requires high { e ≤ chi.now.elements }
{
    if is_basis(chi, b) && is_basis(chi, c) && b.has(e) && !c.has(e) {
        Some(exchange(chi, b, c, e))
    } else {
        None
    }
}

/// The first basis, the first one with 2 and 3, and what can replace 1 and 4 in 124 among the elements of 356.
fn bases(chi: &Chirotope) -> (Subset, Option<Subset>, Option<u8>, Option<u8>)
    requires { chi.now.elements ≡ 9 }
{
    let (b, c) = (Subset::from_mask(0b1011, 9), Subset::from_mask(0b110100, 9));
    let (inside, basis) = (Subset::from_mask(0b110, 9), Subset::from_mask(0b1110, 9));
    (
        first_basis(chi),
        extension(chi, inside, basis),
        exchanged(chi, b, c, 1),
        exchanged(chi, b, c, 4),
    )
}

/// Whether there is a chirotope of nine elements, and these are its first basis, the first one with 2 and 3, and
/// what can replace 1 and 4 in 124.
fn has_bases(
    chi: Result<Chirotope, SampleError>,
    expected: (Subset, Option<Subset>, Option<u8>, Option<u8>),
) -> bool
    requires { IfOk chi (λ c. c.elements ≡ 9) }
{
    match chi {
        Ok(chi) => bases(&chi) == expected,
        Err(_) => false,
    }
}

// 123 is collinear, so the first bases are 124 and 234. Of 3, 5 and 6 the first makes a basis with 2 and 4, and not
// with 1 and 2.
#[test]
fn pappus(rt: HostRuntime) {
    let (first, extended) = (Subset::from_mask(0b1011, 9), Subset::from_mask(0b1110, 9));
    let expected = (first, Some(extended), Some(3), Some(5));
    assert!(rt; has_bases(chirotope_of(&rt, rt.alloc(), 3, 9, PAPPUS), expected));
}
