//! Vectors generated from a number, and their summary.

use om_make::{Tally, summary, vectors};

/// The circles of 1, 3 and 4 meet in two points, and each of them meets that of 2 in two more. These are 8 points,
/// with 18 arcs and 12 regions, which with zero make 39 covectors. Each triple but 1, 3 and 4 is a mutation.
const TALLY: Tally = Tally {
    plus: 2,
    zero: 1,
    minus: 1,
    cocircuits: 8,
    covectors: 39,
    mutations: 3,
};

// The state after 7 is 69,069 times 7, plus 1, which is 483,484; without its low 16 bits it is 7, and 7 less 9 is
// -2. The fourth vector is -2 0 1.
#[test]
fn four_vectors(rt: HostRuntime) {
    let word = vectors(7, 4);
    assert!(rt; word.len() == 4 && word.at(3).x() == -2 && word.at(3).z() == 1);
    assert!(rt; summary(&rt, rt.alloc(), &word) == Ok(TALLY));
}
