//! Vectors at the limit and lists of vectors. The signs of vectors are rows of `convert`, and whether they realize a
//! chirotope rows of `check`.

use super::helpers::hold;
use super::maps::word_of;
use om_signs::MAX_COORDINATE;
use om_vectors::{Unfound, Vector, Word, triple};

/// Whether there is a vector of three numbers, and they are its coordinates.
fn is_vector(x: i64, y: i64, z: i64) -> bool {
    match Vector::new(x, y, z) {
        Some(vector) => vector.x() == x && vector.y() == y && vector.z() == z,
        None => false,
    }
}

#[test]
fn coordinates(rt: HostRuntime) {
    hold(
        &rt,
        &[
            (
                "at the limit",
                is_vector(MAX_COORDINATE, -MAX_COORDINATE, 0),
            ),
            (
                "at the limit twice",
                is_vector(-MAX_COORDINATE, MAX_COORDINATE, MAX_COORDINATE),
            ),
            ("x past it", Vector::new(1_099_511_627_777, 0, 0).is_none()),
            ("y past it", Vector::new(0, -1_099_511_627_777, 0).is_none()),
            ("z past it", Vector::new(0, 0, 1_099_511_627_777).is_none()),
            ("the least number", Vector::new(0, 0, i64::MIN).is_none()),
            ("the greatest number", Vector::new(i64::MAX, 0, 0).is_none()),
        ],
    );
}

/// Whether three vectors have this triple product.
fn is_product(rows: &[[i64; 3]], product: i128) -> bool {
    let word = word_of(rows);
    word.len() == 3 && triple(word.at(0), word.at(1), word.at(2)) == product
}

// the determinant of three vectors with coordinates 1 and -1 is at most 4, and is 4 for the first three
#[test]
fn greatest_triple_products(rt: HostRuntime) {
    let m = MAX_COORDINATE;
    let four = 5_316_911_983_139_663_491_615_228_241_121_378_304;
    hold(
        &rt,
        &[
            (
                "greatest",
                is_product(&[[-m, m, m], [m, -m, m], [m, m, -m]], four),
            ),
            (
                "least",
                is_product(&[[m, -m, m], [-m, m, m], [m, m, -m]], -four),
            ),
            ("zero", is_product(&[[-m, m, m], [m, -m, m], [-m, m, m]], 0)),
        ],
    );
}

/// The first vectors of three, followed by another.
fn after_cut(len: u8, x: i64, y: i64, z: i64) -> Word {
    let mut word = word_of(&[[1, 2, 3], [-4, 5, 6], [1, 2, 3]]);
    if len < word.len()
        && let Some(vector) = Vector::new(x, y, z)
    {
        word.cut(len);
        word.push(vector);
    }
    word
}

#[test]
fn words(rt: HostRuntime) {
    hold(
        &rt,
        &[
            (
                "after one",
                after_cut(1, -4, 5, 6) == word_of(&[[1, 2, 3], [-4, 5, 6]]),
            ),
            (
                "after two",
                after_cut(2, 1, 2, 3) == word_of(&[[1, 2, 3], [-4, 5, 6], [1, 2, 3]]),
            ),
            (
                "after none",
                after_cut(0, 7, 8, 9).as_slice() == word_of(&[[7, 8, 9]]).as_slice(),
            ),
            (
                "frontier and exhausted",
                Unfound::Frontier(Word::new()) != Unfound::Exhausted,
            ),
        ],
    );
}
