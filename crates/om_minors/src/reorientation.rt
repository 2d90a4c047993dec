//! Reorientation of a chirotope.

ghost use Rattle.std.specs.Prelude.{◌≡◌, ◌<◌, ◌≤◌, ◌^◌, length};
ghost use Rattle.om_signs.specs.declared.sign.Sign.TheVariants.{Plus};
ghost use Rattle.om_subsets.specs.Subsets.{choose};
ghost use Rattle.om_laws.specs.Reorientation.{turning, signs_product};
ghost use Rattle.om_chirotope.specs.Map.{map_of, IsLedBy};
ghost use Rattle.om_denotation.specs.Covectors.{IsCovectorOfChirotope};
ghost use Rattle.om_denotation.specs.Operations.{IsReorientation};
ghost use Rattle.om_denotation.specs.Maps.{IsNormalFormOf};
ghost use Rattle.om_minors.specs.Minors.{names, reoriented_on};

use om_chirotope::Chirotope;
use om_signs::{MAX_PLACES, RawMap, Sign};
use om_subsets::Subset;

/// The normal chirotope of the reorientation of the elements of a mask: its covectors are the covectors with their
/// signs at these elements negated. The mask names elements of the oriented matroid: its bit e - 1 stands for
/// element e. The call allocates no memory.
///
/// Source: Björner, Las Vergnas, Sturmfels, White and Ziegler, *Oriented Matroids*, chapter 3.
pub fn reorient_chirotope(chi: Chirotope, mask: u32) -> Chirotope
    requires { mask < 2 ^ chi.elements }
    ensures rank { result.rank ≡ chi.rank }
    ensures elements { result.elements ≡ chi.elements }
    ensures reorientation { IsReorientation chi.elements mask (IsCovectorOfChirotope chi)
        (IsCovectorOfChirotope result) }
    ensures normal { IsLedBy Plus result.signs }
    ensures value { IsNormalFormOf (reoriented_on mask chi) result }
{
    Chirotope::lawful(turned(chi.into_raw(), mask)).normal()
}

/// The map with the sign of each list negated once for each of its elements that the mask names.
fn turned(raw: RawMap, mask: u32) -> RawMap
    requires high { raw.elements ≤ MAX_PLACES }
    requires part { raw.rank ≤ raw.elements }
    requires whole { length raw.signs ≡ choose raw.elements raw.rank }
    ensures { map_of result ≡ reoriented_on mask (map_of raw) }
{
    let mut turned = raw;
    for (place, s) in Subset::all(turned.rank, turned.elements).enumerate() {
        let sign = turned.signs.at(place);
        turned.signs.set(place, turning_sign(s, mask).times(sign));
    }
    turned
}

/// Minus if the mask names an odd number of elements of the set, and else plus.
fn turning_sign(s: Subset, mask: u32) -> Sign
    ensures { result ≡ signs_product (turning (names mask)) s.elements }
{
    let named = Subset::from_mask(s.mask() & mask, s.n());
    if named.size() % 2 == 1 {
        Sign::Minus
    } else {
        Sign::Plus
    }
}
