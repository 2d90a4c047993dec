//! The extensions of the chirotope of three vectors, by their signatures.

ghost use Rattle.std.specs.Prelude.{◌≡◌, All};
ghost use Rattle.om_localize.specs.Extensions.{IsSignature};

use om_chirotope::Chirotope;
use om_covers::extension;
use om_localize::{Signature, extensions};
use om_samples::chirotope_of;
use om_signs::Sign;
use std::alloc::Global;

/// Whether the extension has the sign of the three vectors, and then the signs of the signature.
fn is_grown(alloc: Global, chi: &Chirotope, signature: Signature) -> bool
    requires rank { chi.now.rank ≡ 3 }
    requires elements { chi.now.elements ≡ 3 }
    requires signature { IsSignature chi.now signature }
{
    match extension(alloc, chi, signature) {
        Ok(grown) => {
            let raw = grown.into_raw();
            let signs = raw.signs.as_slice();
            signs.len() == 4
                && signs.first() == Some(&Sign::Plus)
                && (0..signature.len()).all(|i| signs.get(i as usize + 1) == Some(&signature.at(i)))
        }
        Err(_) => false,
    }
}

/// How many of these extensions were made right.
fn count_grown(alloc: Global, chi: &Chirotope, lines: &[Signature]) -> u32
    requires rank { chi.now.rank ≡ 3 }
    requires elements { chi.now.elements ≡ 3 }
    requires members { All (IsSignature chi.now) lines.now }
{
    let mut count = 0u32;
    for signature in lines {
        count = count.saturating_add(u32::from(is_grown(alloc, chi, *signature)));
    }
    count
}

// Each of the 27 signatures of three signs is that of an extension.
#[test]
fn of_three_vectors(rt: HostRuntime) {
    let alloc = rt.alloc();
    let found = match chirotope_of(&rt, alloc, 3, 3, "+") {
        Ok(chi) => match extensions(&rt, alloc, &chi, 27) {
            Ok(listing) => count_grown(alloc, &chi, listing.lines.as_slice()),
            Err(_) => 0,
        },
        Err(_) => 0,
    };
    assert!(rt; found == 27);
}
