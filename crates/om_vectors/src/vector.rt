ghost use Rattle.std.specs.Prelude.{◌≡◌, ◌↔◌, IsTrue};
ghost use Rattle.std.specs.Option.{SomeIff};
ghost use Rattle.om_vectors.specs.WholeVectors.{vector_of, zero_vector, IsWithinLimit};
ghost use Rattle.om_signs.specs.Coordinates.{IsCoordinate};

use om_signs::MAX_COORDINATE;
use std::marker::Model;

/// A vector of three integers, each of absolute value at most [`MAX_COORDINATE`]. Contracts see the three
/// numbers.
///
/// Source: Björner, Las Vergnas, Sturmfels, White and Ziegler, *Oriented Matroids*, chapter 1.
#[derive(Clone, Copy, Debug, PartialEq, Eq)]
pub struct Vector {
    x: i64,
    y: i64,
    z: i64,
}

impl Model for Vector {
    ghost use Rattle.om_vectors.specs.WholeVectors.{WholeVector, vector_of, IsWithinLimit};

    ghost Value = { WholeVector };

    ghost view = { λ v. vector_of v.x v.y v.z };

    ghost invariant = { λ v. IsWithinLimit (vector_of v.x v.y v.z) };

    ghost inverse = { λ v. record { x = v.x; y = v.y; z = v.z } };
}

impl Vector {
    /// The vector with these coordinates, or None if one of them has an absolute value above [`MAX_COORDINATE`].
    pub fn new(x: i64, y: i64, z: i64) -> Option<Vector>
        ensures { SomeIff result (IsWithinLimit (vector_of x y z)) (vector_of x y z) }
    {
        if is_coordinate(x) && is_coordinate(y) && is_coordinate(z) {
            Some(Vector { x, y, z })
        } else {
            None
        }
    }

    /// The vector of three zeros.
    pub(crate) fn zero() -> Vector
        ensures { result ≡ zero_vector }
    {
        Vector { x: 0, y: 0, z: 0 }
    }

    /// The first coordinate, of absolute value at most [`MAX_COORDINATE`].
    pub fn x(self) -> i64
        ensures value { result ≡ self.x }
        ensures size { IsCoordinate result }
    {
        self.x
    }

    /// The second coordinate, of absolute value at most [`MAX_COORDINATE`].
    pub fn y(self) -> i64
        ensures value { result ≡ self.y }
        ensures size { IsCoordinate result }
    {
        self.y
    }

    /// The third coordinate, of absolute value at most [`MAX_COORDINATE`].
    pub fn z(self) -> i64
        ensures value { result ≡ self.z }
        ensures size { IsCoordinate result }
    {
        self.z
    }
}

/// Whether a number has an absolute value of at most [`MAX_COORDINATE`].
fn is_coordinate(x: i64) -> bool
    ensures { IsTrue result ↔ IsCoordinate x }
{
    -MAX_COORDINATE <= x && x <= MAX_COORDINATE
}
