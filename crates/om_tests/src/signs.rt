//! Signs, sign vectors of length two, and lists, computed by hand. The order of vectors of one length is a row of
//! `dual`.

use super::helpers::hold;
use om_samples::vector_of;
use om_signs::{List, NoMemory, Sign};

#[test]
fn signs(rt: HostRuntime) {
    let (minus, zero, plus) = (Sign::Minus, Sign::Zero, Sign::Plus);
    let found = [
        minus.neg(),
        zero.neg(),
        plus.neg(),
        minus.times(minus),
        plus.times(minus),
        zero.times(plus),
        vector_of(2, "-+").get(2),
    ];
    assert!(rt; found == [plus, zero, minus, plus, minus, zero, plus]);
    let bits = [
        plus.plus_bit(),
        minus.plus_bit(),
        minus.minus_bit(),
        zero.minus_bit(),
    ];
    assert!(rt; bits == [1, 0, 1, 0]);
}

#[test]
fn vectors(rt: HostRuntime) {
    let (x, y, plus) = (vector_of(2, "+0"), vector_of(2, "-+"), vector_of(1, "+"));
    let made = [
        x.compose(y),
        y.compose(x),
        y.neg(),
        y.flip(0b10),
        y.drop_place(1),
    ];
    assert!(rt;
        made == [
            vector_of(2, "++"),
            y,
            vector_of(2, "+-"),
            vector_of(2, "--"),
            plus
        ]
    );
    let masks = [
        x.separation(y),
        x.support(),
        y.plus(),
        y.minus(),
        y.len() as u32,
    ];
    assert!(rt; masks == [0b01, 0b01, 0b10, 0b01, 2]);
    // a vector comes before each longer one that begins with it
    let short = vector_of(1, "0");
    assert!(rt; short < vector_of(2, "0-"));
    assert!(rt; y < short);
}

/// Pairs of vectors. Whether they are orthogonal: the products of their signs are all zero, or one is plus and one
/// is minus. And whether the first conforms to the second: it is zero, or has the same sign, at each place.
const PAIRS: [(&str, &str, bool, bool); 8] = [
    ("++", "+-", true, false),
    ("++", "++", false, true),
    ("+-", "-+", false, false),
    ("+0", "0+", true, false),
    ("+0", "++", false, true),
    ("00", "--", true, true),
    ("++", "+0", false, false),
    ("+0", "-+", false, false),
];

#[test]
fn pairs(rt: HostRuntime) {
    for (x, y, orthogonal, conforms) in PAIRS.iter() {
        let (x, y) = (vector_of(2, x), vector_of(2, y));
        let found = [x.orthogonal(y), y.orthogonal(x), x.conforms(y)];
        assert!(rt; found == [*orthogonal, *orthogonal, *conforms]);
    }
}

/// Whether there is a list, and it has only the byte 1.
fn is_one(bytes: Result<List<u8>, NoMemory>) -> bool {
    match bytes {
        Ok(bytes) => bytes.as_slice() == [1].as_slice(),
        Err(_) => false,
    }
}

/// Replaces the first byte by another, if there is one.
fn set_first(bytes: &mut List<u8>, byte: u8) {
    if bytes.len() > 0 {
        bytes.set(0, byte);
    }
}

// 1 is put into a list and changed into 3, and 2 is appended; a copy made before has only 1
#[test]
fn lists(rt: HostRuntime) {
    let mut bytes: List<u8> = List::new(rt.alloc());
    let first = bytes.push(1).is_ok();
    let copied = is_one(bytes.copy());
    set_first(&mut bytes, 3);
    let second = bytes.push(2).is_ok();
    let numbers: List<u32> = bytes.empty_like();
    hold(
        &rt,
        &[
            ("a first byte", first),
            ("a copy of it", copied),
            ("a second byte", second),
            ("both bytes", bytes.as_slice() == [3, 2].as_slice()),
            ("an empty list", numbers.len() == 0),
        ],
    );
}
