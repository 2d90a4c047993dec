//! Subsets in their two orders, computed by hand.

use om_signs::MAX_PLACES;
use om_subsets::Subset;

/// The pairs of four elements in lexicographic order: 12, 13, 14, 23, 24, 34.
const PAIRS: [u32; 6] = [0b0011, 0b0101, 0b1001, 0b0110, 0b1010, 0b1100];

/// The pairs of four elements in reverse lexicographic order: 12, 13, 23, 14, 24, 34.
const REVERSE_PAIRS: [u32; 6] = [0b0011, 0b0101, 0b0110, 0b1001, 0b1010, 0b1100];

/// Three of the elements 1 to 6 at their places in reverse lexicographic order: 123, 124, 134, 234, 125 and, as the
/// last of the 20, 456.
const REVERSE_TRIPLES: [(u32, u32); 6] = [
    (0, 0b000111),
    (1, 0b001011),
    (2, 0b001101),
    (3, 0b001110),
    (4, 0b010011),
    (19, 0b111000),
];

#[test]
fn pairs_of_four(rt: HostRuntime) {
    let mut pair = Subset::first(2, 4);
    for (place, mask) in PAIRS.iter().enumerate() {
        let found = (pair.rank() as usize, pair.mask(), pair.next().is_none());
        assert!(rt; found == (place, *mask, place == 5));
        pair = pair.following();
    }
    assert!(rt; pair.next().is_none());
}

#[test]
fn all_sets_of_a_size(rt: HostRuntime) {
    let mut masks = PAIRS.iter();
    for pair in Subset::all(2, 4) {
        assert!(rt; masks.next() == Some(&pair.mask()));
    }
    assert!(rt; masks.next().is_none());
    assert!(rt; Subset::all(0, 4).count() == 1);
    assert!(rt; Subset::all(3, 2).next().is_none());
}

/// The mask and the rank of the subset at a place in the reverse order.
fn in_reverse(place: u32, r: u8, n: u8) -> Option<(u32, u32)> {
    if n > MAX_PLACES || r > n || place >= Subset::choose(n, r) {
        return None;
    }
    let set = Subset::unrank_revlex(place, r, n);
    Some((set.mask(), set.rank_revlex()))
}

#[test]
fn sets_in_reverse(rt: HostRuntime) {
    for place in 0..6 {
        let expected = (REVERSE_PAIRS[place as usize], place);
        assert!(rt; in_reverse(place, 2, 4) == Some(expected));
    }
    for (place, mask) in REVERSE_TRIPLES.iter() {
        assert!(rt; in_reverse(*place, 3, 6) == Some((*mask, *place)));
    }
}

#[test]
fn the_last_pair(rt: HostRuntime) {
    let pair = Subset::from_mask(0b1100, 4);
    let facts = [pair.has(3), pair.odd_after(3), pair.odd_after(2)];
    assert!(rt; facts == [true, true, false]);
    let sets = [pair, pair.without(4).with(1), pair.skipping(4)];
    let expected = [
        Subset::unrank(5, 2, 4),
        Subset::from_mask(0b0101, 4),
        Subset::from_mask(0b10100, 5),
    ];
    assert!(rt; sets == expected);
    assert!(rt; (Subset::choose(4, 2), pair.least(), pair.size()) == (6, 3, 2));
}

#[test]
fn sets_of_others(rt: HostRuntime) {
    // 134 and 345 of the elements 1 to 5
    let (set, other) = (Subset::triple(4, 1, 3, 5), Subset::from_mask(0b11100, 5));
    assert!(rt; set.three_elements() == (1, 3, 4));
    let (both, rest) = (set.intersection(other), set.complement());
    let found = [
        both.is_part_of(set),
        set.is_part_of(other),
        set.is_apart_from(rest),
        set.is_apart_from(other),
    ];
    assert!(rt;
        [both.mask(), rest.mask()] == [0b01100, 0b10010] && found == [true, false, true, false]
    );
}
