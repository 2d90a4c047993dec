//! Vectors that are drawn from a number.

ghost use Rattle.std.specs.Prelude.{◌≡◌, ◌≤◌};
ghost use Rattle.om_vectors.specs.WholeVectors.{vector_of, IsWithinLimit};
ghost use Rattle.om_make.specs.Generator.{unit_vectors, made_vectors};

use super::generator::Generator;
use om_signs::{MAX_DRAWN, MIN_DRAWN};
use om_vectors::{Vector, Word};

/// The number of unit vectors.
const UNITS: u8 = 3;

/// The `count` vectors, from [`MIN_DRAWN`] to [`MAX_DRAWN`], that a number determines: the three unit vectors,
/// followed by vectors of three draws each. The same number gives the same vectors, and a longer list begins with
/// the shorter one.
///
/// The first state of the generator is the number. Each next state is 69,069 times the state before it, plus 1,
/// modulo 2^32. A draw is the state without its low 16 bits, modulo 19, minus 9. The call allocates no memory.
pub fn vectors(seed: u32, count: u8) -> Word
    requires low { MIN_DRAWN ≤ count }
    requires high { count ≤ MAX_DRAWN }
    ensures { result ≡ made_vectors seed count }
{
    let mut word = unit_vectors();
    let mut generator = Generator { state: seed };
    for _place in UNITS..count {
        word.push(generator.vector());
    }
    word
}

/// The three unit vectors.
fn unit_vectors() -> Word
    ensures { result ≡ unit_vectors }
{
    let mut word = Word::new();
    word.push(unit(1, 0, 0));
    word.push(unit(0, 1, 0));
    word.push(unit(0, 0, 1));
    word
}

/// The vector with three coordinates within the limit.
fn unit(x: i64, y: i64, z: i64) -> Vector
    requires { IsWithinLimit (vector_of x y z) }
    ensures { result ≡ vector_of x y z }
{
    Vector::new(x, y, z).unwrap()
}
