//! Claims: the verdicts that are read, and those that are printed.

ghost use Rattle.std.specs.Prelude.{◌≡◌, ◌≤◌, length};
ghost use Rattle.om_signs.specs.declared.limits.TheConstants.{MAX_READ};

use super::made::is_made;
use om_answer::{print_verdict, read_claim};
use om_certificate::{LpEnd, Verdict};
use om_chirotope::Chirotope;
use om_samples::chirotope_of;
use om_simplex::Stage;
use om_text::Body;
use om_vectors::{Unfound, Vector};
use std::alloc::Global;

/// Whether a tableau ended at two basis numbers, and a search at one vector.
fn is_limit(verdict: &Verdict) -> bool {
    match verdict {
        Verdict::Limit(LpEnd::Pivots { count, basis }, Unfound::Frontier(word)) => {
            *count == 1_000_000
                && basis.as_slice() == [0, 999_999].as_slice()
                && word.len() == 1
                && Vector::new(-1, 0, 7) == Some(word.at(0))
        }
        _ => false,
    }
}

/// Whether bytes are a claim on a wiring with this limit.
fn is_limit_of_wiring(alloc: Global, bytes: &[u8]) -> bool
    requires { length bytes.now ≤ MAX_READ }
{
    match read_claim(alloc, bytes) {
        Ok(claim) => matches!(claim.document.body, Body::Wiring(_)) && is_limit(&claim.verdict),
        Err(_) => false,
    }
}

#[test]
fn claim_with_a_basis(rt: HostRuntime) {
    let text =
        b"om 1\nwiring 2\n1-2\nend\nlimit\npivots 1000000\nbasis 0 999999\nfrontier\nvector -1 0 7\nend\n";
    assert!(rt; is_limit_of_wiring(rt.alloc(), text));
}

/// Whether the verdict on one element by a tableau that ended at a width of this stage is printed as this text.
fn is_printed(alloc: Global, chi: &Chirotope, stage: Stage, text: &str) -> bool
    requires rank { chi.now.rank ≡ 1 }
    requires elements { chi.now.elements ≡ 1 }
{
    let end = LpEnd::Width {
        stage,
        pivot: 1_000_001,
        row: 65_535,
        place: 0,
    };
    let verdict = Verdict::Limit(end, Unfound::Exhausted);
    is_made(print_verdict(alloc, chi, &verdict), text.as_bytes())
}

/// The text of the verdict on one element by a tableau that ended at a width of each stage.
const WIDTHS: [(Stage, &str); 4] = [
    (
        Stage::Price,
        "om 1\nchirotope 1 1\n+\nend\nlimit\nwidth price 1000001 65535 0\nexhausted\nend\n",
    ),
    (
        Stage::Column,
        "om 1\nchirotope 1 1\n+\nend\nlimit\nwidth column 1000001 65535 0\nexhausted\nend\n",
    ),
    (
        Stage::Update,
        "om 1\nchirotope 1 1\n+\nend\nlimit\nwidth update 1000001 65535 0\nexhausted\nend\n",
    ),
    (
        Stage::Scale,
        "om 1\nchirotope 1 1\n+\nend\nlimit\nwidth scale 1000001 65535 0\nexhausted\nend\n",
    ),
];

/// Whether each stage is printed with its text.
fn are_printed(alloc: Global, chi: &Chirotope) -> bool
    requires rank { chi.now.rank ≡ 1 }
    requires elements { chi.now.elements ≡ 1 }
{
    for (stage, text) in WIDTHS.iter() {
        if !is_printed(alloc, chi, *stage, text) {
            return false;
        }
    }
    true
}

#[test]
fn printed_widths(rt: HostRuntime) {
    let printed = match chirotope_of(&rt, rt.alloc(), 1, 1, "+") {
        Ok(chi) => are_printed(rt.alloc(), &chi),
        Err(_) => false,
    };
    assert!(rt; printed);
}
