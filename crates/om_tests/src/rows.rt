//! Rows computed by hand, and numbers at the limit.

ghost use Rattle.std.specs.Prelude.{◌≡◌, ◌≤◌, ◌<◌, length};

use super::helpers::hold;
use om_rows::{Column, Wide, are_short, combine, compare_ratios, dot, gcd, is_short, primitive};
use om_signs::MAX_ROWS;
use std::cmp::Ordering;

const MAX: i128 = i128::MAX;

const MIN: i128 = i128::MIN;

/// The greatest number of 64 bits.
const SHORT_MAX: i128 = 9_223_372_036_854_775_807;

/// The least number of 64 bits.
const SHORT_MIN: i128 = -9_223_372_036_854_775_808;

/// The first two numbers of a row, the third and the fourth subtracted, and the last.
const STRICT: Column = Column {
    small0: 1,
    small1: 2,
    big0: 3,
    big1: 4,
    strict: true,
};

/// The same numbers without the last one.
const NOT_STRICT: Column = Column {
    small0: 1,
    small1: 2,
    big0: 3,
    big1: 4,
    strict: false,
};

/// Rows, columns, and their products.
const PRODUCTS: [([i128; 5], Column, Result<i128, Wide>); 6] = [
    ([10, 20, 3, 4, 100], STRICT, Ok(123)),
    ([10, 20, 3, 4, 100], NOT_STRICT, Ok(23)),
    ([MAX, MAX, MAX, MAX, 5], STRICT, Ok(5)),
    ([MAX, MAX, MIN, MIN, 0], STRICT, Err(Wide { place: 0 })),
    ([MIN, -1, MIN, -1, MIN], STRICT, Ok(MIN)),
    ([MAX, 2, 1, 1, 1], STRICT, Err(Wide { place: 0 })),
];

#[test]
fn products(rt: HostRuntime) {
    for (row, column, product) in PRODUCTS.iter() {
        assert!(rt; dot(row, *column) == *product);
    }
}

/// Whether combining a row with a pivot row fits or, if a place isn't 0, first fails at this place; and the row is
/// this one afterwards.
fn is_combined(
    tp: i128,
    row: &mut [i128],
    tk: i128,
    pivot: &[i128],
    place: u16,
    after: &[i128],
) -> bool
    requires some { 0 < length row.old }
    requires few { length row.old ≤ MAX_ROWS }
    requires same { length pivot.now ≡ length row.old }
{
    let failed = match combine(tp, row, tk, pivot) {
        Ok(()) => 0,
        Err(wide) => wide.place,
    };
    failed == place && &*row == after
}

// of numbers of any size, with two that are too wide; and of numbers at the limit of 64 bits and past it, the last of
// which is too wide
#[test]
fn combinations(rt: HostRuntime) {
    let past = SHORT_MAX + 1;
    let greatest = MAX - SHORT_MAX;
    let least = MIN + 27_670_116_110_564_327_423;
    hold(
        &rt,
        &[
            (
                "small numbers",
                is_combined(2, &mut [6, 4, 9], 3, &[1, 2, 3], 0, &[9, 2, 9]),
            ),
            (
                "one too wide",
                is_combined(2, &mut [1 << 126], 0, &[0], 1, &[1 << 126]),
            ),
            (
                "the second too wide",
                is_combined(1, &mut [0, MAX, MAX], -1, &[MAX, 1, 1], 2, &[0, MAX, MAX]),
            ),
            (
                "at the limit of 64 bits",
                is_combined(
                    SHORT_MIN,
                    &mut [SHORT_MIN, SHORT_MAX],
                    SHORT_MAX,
                    &[SHORT_MIN, SHORT_MAX],
                    0,
                    &[greatest, least],
                ),
            ),
            (
                "past it",
                is_combined(past, &mut [past], SHORT_MAX, &[SHORT_MIN], 0, &[greatest]),
            ),
            (
                "past it and too wide",
                is_combined(past, &mut [past], SHORT_MIN, &[past], 1, &[past]),
            ),
        ],
    );
}

#[test]
fn short_numbers(rt: HostRuntime) {
    hold(
        &rt,
        &[
            ("greatest", is_short(SHORT_MAX)),
            ("least", is_short(SHORT_MIN)),
            ("a row", are_short(&[SHORT_MIN, 0, SHORT_MAX])),
            ("past the greatest", !is_short(SHORT_MAX + 1)),
            ("past the least", !is_short(SHORT_MIN - 1)),
            ("a row with one past it", !are_short(&[0, MIN])),
        ],
    );
}

/// Whether a row divided by the greatest common divisor of its numbers is this one.
fn is_primitive(row: &mut [i128], expected: &[i128]) -> bool {
    primitive(row);
    &*row == expected
}

// of rows, and of pairs of numbers
#[test]
fn divisors(rt: HostRuntime) {
    hold(
        &rt,
        &[
            (
                "small numbers",
                is_primitive(&mut [12, -18, 0, 30], &[2, -3, 0, 5]),
            ),
            ("zeros", is_primitive(&mut [0, 0], &[0, 0])),
            (
                "least numbers",
                is_primitive(&mut [MIN, 0, MIN], &[-1, 0, -1]),
            ),
        ],
    );
    let greatest = [
        gcd(12, 18),
        gcd(18, 12),
        gcd(7, 5),
        gcd(0, 4),
        gcd(4, 0),
        gcd(0, 0),
    ];
    assert_eq!(rt; greatest, [6, 6, 1, 4, 4, 0]);
}

#[test]
fn fractions(rt: HostRuntime) {
    let found = [
        compare_ratios(1, 2, 2, 4),
        compare_ratios(1, 3, 1, 2),
        compare_ratios(0, 1, 0, 5),
        compare_ratios(MAX, MAX - 1, MAX - 1, MAX - 2),
        compare_ratios(MAX, 1, MAX, 2),
    ];
    let (less, equal) = (Ordering::Less, Ordering::Equal);
    assert!(rt; found == [equal, less, equal, less, Ordering::Greater]);
}
