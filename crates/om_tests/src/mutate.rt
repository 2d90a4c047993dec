//! Flips computed by hand. The mutations of a chirotope are rows of `mutations`.

ghost use Rattle.std.specs.Prelude.{◌≡◌, IfOk};

use super::helpers::hold;
use super::wiring::sweep_of;
use om_chirotope::Chirotope;
use om_mutate::{BadFlip, FlipRefused, NotTriangle, flip, flip_wiring};
use om_samples::{SampleError, chirotope_of, is_map};
use om_signs::Block;
use om_subsets::Subset;
use om_wiring::Wiring;

/// Whether a flip gave the map of four elements with the signs of a text; or whether it was refused for a reason,
/// and this map was handed back.
fn is_flip(found: Result<Chirotope, BadFlip>, refused: Option<FlipRefused>, signs: &str) -> bool {
    let (why, chi) = match found {
        Ok(chi) => (None, chi),
        Err(bad) => (Some(bad.why), bad.kept),
    };
    (why == refused) & is_map(&chi.into_raw(), 3, 4, signs)
}

/// Whether there is a chirotope with four elements, and the flip of its first triple gives this.
fn has_flip(chi: Result<Chirotope, SampleError>, refused: Option<FlipRefused>, signs: &str) -> bool
    requires { IfOk chi (λ c. c.elements ≡ 4) }
{
    match chi {
        Ok(chi) => is_flip(flip(chi, Subset::unrank(0, 3, 4)), refused, signs),
        Err(_) => false,
    }
}

/// Whether a wiring diagram was flipped at a triangle, and these are its blocks; or whether there was none, and
/// these were handed back.
fn has_blocks(found: Result<Wiring, NotTriangle>, has_triangle: bool, blocks: &[Block]) -> bool {
    let (turned, wiring) = match found {
        Ok(other) => (true, other),
        Err(none) => (false, none.kept),
    };
    (turned == has_triangle) & (wiring.blocks() == blocks)
}

/// Whether there is a wiring diagram, whether it has a triangle at a step, and whether these are the blocks after
/// its flip, or those handed back.
fn is_flipped(found: Option<Wiring>, step: u32, has_triangle: bool, blocks: &[Block]) -> bool {
    match found {
        Some(w) => has_blocks(flip_wiring(w, step), has_triangle, blocks),
        None => false,
    }
}

/// The block of the first two positions.
const FIRST: Block = Block { first: 1, last: 2 };

/// The block of the second position and the third.
const SECOND: Block = Block { first: 2, last: 3 };

/// The block of the third position and the fourth.
const THIRD: Block = Block { first: 3, last: 4 };

/// The blocks of four wires.
const KEPT: [Block; 6] = [FIRST, SECOND, FIRST, THIRD, SECOND, FIRST];

/// The same blocks after the flip at the first step.
const TURNED: [Block; 6] = [SECOND, FIRST, SECOND, THIRD, SECOND, FIRST];

// The value of 123 is negated if it is a basis, and otherwise the map is handed back. The wires 1, 2 and 3 cross in
// pairs in the first three steps, and after the flip they do so in the other order. The steps 4 to 6 are three
// different blocks, and only one more comes after step 5.
#[test]
fn chirotopes_and_triangles(rt: HostRuntime) {
    let alloc = rt.alloc();
    let refused = Some(FlipRefused::NotBasis);
    hold(
        &rt,
        &[
            (
                "a flip of 123",
                has_flip(chirotope_of(&rt, alloc, 3, 4, "++++"), None, "-+++"),
            ),
            (
                "a triple that is no basis",
                has_flip(chirotope_of(&rt, alloc, 3, 4, "0+++"), refused, "0+++"),
            ),
            (
                "a triangle at step 1",
                is_flipped(
                    sweep_of(alloc, chirotope_of(&rt, alloc, 3, 4, "++++")),
                    1,
                    true,
                    &TURNED,
                ),
            ),
            (
                "no triangle at step 4",
                is_flipped(
                    sweep_of(alloc, chirotope_of(&rt, alloc, 3, 4, "++++")),
                    4,
                    false,
                    &KEPT,
                ),
            ),
            (
                "too few steps behind step 5",
                is_flipped(
                    sweep_of(alloc, chirotope_of(&rt, alloc, 3, 4, "++++")),
                    5,
                    false,
                    &KEPT,
                ),
            ),
        ],
    );
}
