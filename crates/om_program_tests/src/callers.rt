//! The callers on small inputs.

ghost use Rattle.std.specs.Prelude.{◌≡◌, ◌≤◌, length};
ghost use Rattle.om_signs.specs.declared.limits.TheConstants.{MAX_READ};

use om_callers::{NotRead, covectors_of_text, first_triple};
use om_chirotope::{Chirotope, MapRefused};
use om_samples::chirotope_of;
use om_signs::Sign;
use om_subsets::Subset;
use om_text::Code;
use std::alloc::Global;
use std::thread::Threads;

/// How many covectors there are, if there are any.
fn count<R: Threads + Sync>(rt: &R, alloc: Global, bytes: &[u8]) -> Result<usize, NotRead>
    requires { length bytes.now ≤ MAX_READ }
{
    let covectors = covectors_of_text(rt, alloc, bytes)?;
    Ok(covectors.members().len())
}

// of two parallel elements; without the line `end`; and of another kind
#[test]
fn covectors_of_bytes(rt: HostRuntime) {
    let alloc = rt.alloc();
    let counts = [
        count(&rt, alloc, b"om 1\nchirotope 1 2\n++\nend\n"),
        count(&rt, alloc, b"om 1\nchirotope 1 2\n++\n"),
        count(&rt, alloc, b"om 1\ncircuits 2\nend\n"),
    ];
    let missing = NotRead::Line {
        line: 4,
        code: Code::Missing,
    };
    assert!(rt; counts == [Ok(3), Err(missing), Err(NotRead::Kind)]);
}

// a map that is all zero; and one of rank 8 that has 3^8 covectors
#[test]
fn refusals_behind_the_text(rt: HostRuntime) {
    let alloc = rt.alloc();
    let zero = count(&rt, alloc, b"om 1\nchirotope 1 2\n00\nend\n");
    assert!(rt; zero == Err(NotRead::Axioms(MapRefused::AllZero)));
    let many = count(&rt, alloc, b"om 1\nchirotope 8 8\n+\nend\n");
    assert!(rt; many == Err(NotRead::TooMany { limit: 4096 }));
}

/// Whether there is a triple, and it has this mask.
fn is_mask(found: Option<Subset>, mask: u32) -> bool {
    match found {
        Some(triple) => triple.mask() == mask,
        None => false,
    }
}

/// The signs of 123, 124 and 234, each the first with its sign.
const FIRST: [(Sign, u32); 3] = [
    (Sign::Plus, 0b0111),
    (Sign::Zero, 0b1011),
    (Sign::Minus, 0b1110),
];

/// Whether these are the masks of the first triples of a chirotope with each sign.
fn are_first(chi: &Chirotope) -> bool
    requires { chi.now.rank ≡ 3 }
{
    for (sign, mask) in FIRST.iter() {
        if !is_mask(first_triple(chi, *sign), *mask) {
            return false;
        }
    }
    true
}

#[test]
fn triples_with_a_sign(rt: HostRuntime) {
    let first = match chirotope_of(&rt, rt.alloc(), 3, 4, "+0+-") {
        Ok(chi) => are_first(&chi),
        Err(_) => false,
    };
    assert!(rt; first);
}
