//! Sign vectors that are negated at the elements of a mask.

ghost use Rattle.std.specs.Prelude.{◌≡◌, ◌<◌, ◌^◌, length, map};
ghost use Rattle.std.specs.List.{All};
ghost use Rattle.om_signs.specs.SignVec.{flip};

use om_signs::{List, SignVec};

/// The vectors with their signs at the elements of the mask negated, in their order.
pub fn flipped(list: List<SignVec>, mask: u32) -> List<SignVec>
    requires { All (λ X. mask < 2 ^ length X) list }
    ensures { result ≡ map (flip mask) list }
{
    let mut flipped = list;
    for k in 0..flipped.len() {
        let x = flipped.at(k);
        flipped.set(k, x.flip(mask));
    }
    flipped
}
