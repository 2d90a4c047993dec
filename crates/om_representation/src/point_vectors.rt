//! The chirotope of points.

ghost use Rattle.std.specs.Prelude.{◌≡◌, ◌≤◌, length, All, OnOk, IfOk, IfErr};
ghost use Rattle.om_document.specs.declared.body.Body.TheVariants.{Points};
ghost use Rattle.om_document.specs.Form.{IsPoint};
ghost use Rattle.om_vectors.specs.Realizations.{IsRankLow};
ghost use Rattle.om_representation.specs.Points.{vector_of_point, vectors_of, points_map};
ghost use Rattle.om_representation.specs.Axioms.{IsRefusal};

use super::document_refused::DocumentRefused;
use super::unrepresented::Unrepresented;
use om_chirotope::Chirotope;
use om_signs::MAX_ELEMENTS;
use om_vectors::{SignsError, Vector, Word, signs_of};
use std::alloc::Global;

/// The chirotope of the signs of the triple products of points. There are from 1 to [`MAX_ELEMENTS`] points, with
/// coordinates within the limits of documents.
///
/// [`Unrepresented::Refused`] comes if every triple product is zero. [`Unrepresented::Memory`] comes only if some
/// product isn't, and memory for the signs runs out.
pub fn chirotope_of_points(alloc: Global, points: &[[i64; 3]]) -> Result<Chirotope, Unrepresented>
    requires low { 1 ≤ length points.now }
    requires high { length points.now ≤ MAX_ELEMENTS }
    requires each { All IsPoint points.now }
    ensures value { IfOk result (λ c. c ≡ points_map points.now) }
    ensures axioms { OnOk result (IsRankLow (vectors_of points.now) → ⊥) }
    ensures refused { IfErr result (IsRefusal (length points.now) (Points points.now)) }
{
    let word = word_of(points);
    match signs_of(alloc, word.as_slice()) {
        Ok(chirotope) => Ok(chirotope),
        Err(SignsError::RankLow) => Err(Unrepresented::Refused(DocumentRefused::RankLow)),
        Err(SignsError::Memory) => Err(Unrepresented::Memory),
    }
}

/// The vectors of points.
fn word_of(points: &[[i64; 3]]) -> Word
    requires high { length points.now ≤ MAX_ELEMENTS }
    requires each { All IsPoint points.now }
    ensures { result ≡ vectors_of points.now }
{
    let mut word = Word::new();
    for point in points {
        word.push(vector_of_point(*point));
    }
    word
}

/// The vector of a point.
fn vector_of_point(point: [i64; 3]) -> Vector
    requires { IsPoint point }
    ensures { result ≡ vector_of_point point }
{
    Vector::new(point[0], point[1], point[2]).unwrap()
}
