//! Claims that are read, printed and read again, and callers of rank 3. These callers have no proofs.

ghost use Rattle.std.specs.Prelude.{◌≡◌, ◌≤◌, length};
ghost use Rattle.om_signs.specs.declared.limits.TheConstants.{MAX_READ};
ghost use Rattle.om_certificate.specs.Forms.{IsVerdictInForm};
ghost use Rattle.om_document.specs.Form.{IsMapOn};

use super::made::is_made;
use om_answer::{print_verdict, read_claim};
use om_certificate::{LpEnd, Verdict};
use om_chirotope::{Chirotope, check};
use om_reply::Claim;
use om_representation::map_document;
use om_samples::{chirotope_of, is_map};
use om_signs::{MAX_ELEMENTS, NoMemory, RawMap};
use om_simplex::Stage;
use om_text::{Body, Document};
use om_vectors::Unfound;
use std::alloc::Global;
use std::thread::Threads;

/// Whether a map satisfies the axioms, and the claim of this verdict on it has this text.
fn is_text_on_map<R: Threads + Sync>(
    rt: &R,
    alloc: Global,
    raw: RawMap,
    verdict: &Verdict,
    text: &[u8],
) -> bool
    requires low { 1 ≤ raw.elements }
    requires high { raw.elements ≤ MAX_ELEMENTS }
    requires whole { IsMapOn raw.elements raw }
    requires form { IsVerdictInForm verdict.now }
{
    match check(rt, raw) {
        Ok(chi) => is_made(print_verdict(alloc, &chi, verdict), text),
        Err(_) => false,
    }
}

/// Whether bytes are a claim on a chirotope that is printed as this text.
fn is_printed_as<R: Threads + Sync>(rt: &R, alloc: Global, bytes: &[u8], text: &[u8]) -> bool
    requires { length bytes.now ≤ MAX_READ }
{
    match read_claim(alloc, bytes) {
        Ok(claim) => {
            let Claim { document, verdict } = claim;
            let Document { body, .. } = document;
            match body {
                Body::Chirotope(raw) => is_text_on_map(rt, alloc, raw, &verdict, text),
                _ => false,
            }
        }
        Err(_) => false,
    }
}

/// Claims with each verdict and each end, in canonical form.
const CLAIMS: [&str; 6] = [
    "om 1\nchirotope 3 3\n+\nend\nrealizable\nvector 1 0 0\nvector 0 1 0\nvector 0 0 -1099511627776\nend\n",
    "om 1\nchirotope 2 3\n+0-\nend\nrealizable\nend\n",
    "om 1\nchirotope 3 3\n+\nend\nnonrealizable\nlt 1 2 3 4 20 1 3 9223372036854775808\neq 5 5 5 5 5 2 2 1\nend\n",
    "om 1\nchirotope 3 3\n-\nend\nundecided\nweight 18 19 20 -1267650600228229401496703205376\nfrontier\nvector -1 0 7\nend\n",
    "om 1\nchirotope 1 1\n+\nend\nlimit\npivots 1000000\nbasis 0 999999\nexhausted\nend\n",
    "om 1\nchirotope 0 1\n-\nend\nlimit\nwidth scale 1000001 65535 999999\nfrontier\nend\n",
];

#[test]
fn claims_are_copied(rt: HostRuntime) {
    let alloc = rt.alloc();
    for text in CLAIMS.iter() {
        assert!(rt; is_printed_as(&rt, alloc, text.as_bytes(), text.as_bytes()));
    }
}

#[test]
fn spaced_claim_is_printed(rt: HostRuntime) {
    let spaced =
        b"om 1 # a claim\nchirotope 2 2\n\t+\nend\n\n limit  # of one pivot\npivots 0\nbasis 7\nexhausted\nend\n\n";
    let text = b"om 1\nchirotope 2 2\n+\nend\nlimit\npivots 0\nbasis 7\nexhausted\nend\n";
    assert!(rt; is_printed_as(&rt, rt.alloc(), spaced, text));
}

/// The text of a claim on a chirotope of rank 3, left undecided by a tableau that ended at a width.
fn open_claim(alloc: Global, chi: &Chirotope) -> Result<Vec<u8>, NoMemory>
    requires { chi.now.rank ≡ 3 }
{
    let end = LpEnd::Width {
        stage: Stage::Price,
        pivot: 1,
        row: 2,
        place: 3,
    };
    let verdict = Verdict::Limit(end, Unfound::Exhausted);
    print_verdict(alloc, chi, &verdict)
}

/// The document of a chirotope of rank 3.
fn document_in_rank_3(alloc: Global, chi: Chirotope) -> Document
    requires { chi.rank ≡ 3 }
{
    map_document(alloc, chi)
}

/// Whether a document has these signs of rank 3 on four elements.
fn has_signs(document: &Document, signs: &str) -> bool {
    match &document.body {
        Body::Chirotope(raw) => is_map(raw, 3, 4, signs),
        _ => false,
    }
}

/// Whether a chirotope of rank 3 on four elements has these signs, and the claim on it has this text.
fn is_rank_3_on_four(alloc: Global, chi: Chirotope, signs: &str, text: &[u8]) -> bool {
    if chi.rank() != 3 {
        return false;
    }
    let made = is_made(open_claim(alloc, &chi), text);
    made && has_signs(&document_in_rank_3(alloc, chi), signs)
}

#[test]
fn rank_3_is_printed(rt: HostRuntime) {
    let alloc = rt.alloc();
    let text = b"om 1\nchirotope 3 4\n++-+\nend\nlimit\nwidth price 1 2 3\nexhausted\nend\n";
    let printed = match chirotope_of(&rt, alloc, 3, 4, "++-+") {
        Ok(chi) => is_rank_3_on_four(alloc, chi, "++-+", text),
        Err(_) => false,
    };
    assert!(rt; printed);
}
