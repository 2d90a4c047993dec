//! Vectors of length two, and lists of them, computed by hand.

use om_members::{are_same, first_without_negative, is_member, is_zero};
use om_samples::vector_of;

#[test]
fn vectors_and_members(rt: HostRuntime) {
    let (zero, plus, minus) = (vector_of(2, "00"), vector_of(2, "+0"), vector_of(2, "-0"));
    let (both, longer) = (vector_of(2, "+-"), vector_of(3, "000"));
    let answers = [
        is_zero(zero),
        is_zero(plus),
        are_same(plus, minus),
        are_same(zero, longer),
        is_member(&[zero, plus], plus),
        is_member(&[zero, plus], minus),
    ];
    assert!(rt; answers == [true, false, false, false, true, false]);
    let firsts = [
        first_without_negative(&[]),
        first_without_negative(&[plus, zero, minus]),
        first_without_negative(&[plus, zero, minus, both]),
        first_without_negative(&[zero, plus, both]),
    ];
    assert!(rt; firsts == [None, None, Some(3), Some(1)]);
}
