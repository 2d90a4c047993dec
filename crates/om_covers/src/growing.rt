//! The extension of a chirotope of rank 3 with a signature.

ghost use Rattle.std.specs.Prelude.{◌≡◌, ◌<◌, ◌+◌, length, IfOk};
ghost use Rattle.om_subsets.specs.Subsets.{choose};
ghost use Rattle.om_localize.specs.Extensions.{IsExtension, IsSignature, signature_of};
ghost use Rattle.om_covers.specs.Growing.{grown_sign, grown};

use om_chirotope::Chirotope;
use om_localize::Signature;
use om_signs::{List, MAX_ELEMENTS, NoMemory, RawMap, Sign};
use om_subsets::Subset;
use std::alloc::Global;

/// The extension of a chirotope of rank 3 with this signature, which is one of its extensions by one element. There
/// are fewer than [`MAX_ELEMENTS`] elements. That the extension satisfies the axioms isn't tested. Memory for the signs
/// comes from `alloc`.
///
/// [`NoMemory`] comes only if memory runs out.
///
/// Source: Björner, Las Vergnas, Sturmfels, White and Ziegler, *Oriented Matroids*, chapter 7.
pub fn extension(
    alloc: Global,
    chi: &Chirotope,
    signature: Signature,
) -> Result<Chirotope, NoMemory>
    requires rank { chi.now.rank ≡ 3 }
    requires room { chi.now.elements < MAX_ELEMENTS }
    requires signature { IsSignature chi.now signature }
    ensures value { IfOk result (λ x. x ≡ grown chi.now signature) }
    ensures extension { IfOk result (IsExtension chi.now) }
    ensures signature { IfOk result (λ x. signature_of chi.now.elements x ≡ signature) }
{
    let rank = chi.rank();
    let elements = chi.elements() + 1;
    let mut signs = List::new(alloc);
    for s in Subset::all(rank, elements) {
        signs.push(extended_sign(chi, signature, s))?;
    }
    Ok(Chirotope::lawful(RawMap {
        rank,
        elements,
        signs,
    }))
}

/// The sign of three of the elements 1 to n + 1: that of the chirotope, or with n + 1 that of the signature at the
/// other two.
fn extended_sign(chi: &Chirotope, signature: Signature, s: Subset) -> Sign
    requires rank { chi.now.rank ≡ 3 }
    requires room { chi.now.elements < MAX_ELEMENTS }
    requires length { length signature ≡ choose chi.now.elements 2 }
    requires n { s.n ≡ chi.now.elements + 1 }
    requires size { length s.elements ≡ 3 }
    ensures { result ≡ grown_sign chi.now signature s.elements }
{
    let last = s.n();
    if s.has(last) {
        let pair = s.without(last).before_last();
        signature.at(pair.rank() as u8)
    } else {
        chi.at(s.before_last())
    }
}
