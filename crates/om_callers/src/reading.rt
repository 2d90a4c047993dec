//! From bytes to covectors.

ghost use Rattle.std.specs.Prelude.{◌≤◌, length, IfOk, IfErr};
ghost use Rattle.om_callers.specs.Readings.{AreCovectorsOfText, IsCause, IsCauseOfMap, AreCovectorsOfMap};
ghost use Rattle.om_chirotope.specs.Map.{map_of};
ghost use Rattle.om_document.specs.Form.{IsMapOn};

use super::not_read::NotRead;
use om_chirotope::check;
use om_convert::{ConvertError, chirotope_to_covectors};
use om_covectors::Covectors;
use om_document::{Body, Document};
use om_signs::{MAX_ELEMENTS, MAX_READ, RawMap};
use om_text::{ParseError, parse};
use std::alloc::Global;
use std::thread::Threads;

/// The covectors of the oriented matroid whose chirotope the bytes give. The bytes are read as a document, their
/// map is tested against the axioms, and the chirotope is converted. There are at most [`MAX_READ`] bytes. Each
/// error says at which of the three steps it came, and why.
///
/// Source: Björner, Las Vergnas, Sturmfels, White and Ziegler, *Oriented Matroids*, chapters 3 and 4.
pub fn covectors_of_text<R: Threads + Sync>(
    rt: &R,
    alloc: Global,
    bytes: &[u8],
) -> Result<Covectors, NotRead>
    requires { length bytes.now ≤ MAX_READ }
    ensures covectors { IfOk result (AreCovectorsOfText bytes.now) }
    ensures cause { IfErr result (IsCause bytes.now) }
{
    match parse(alloc, bytes) {
        Ok(document) => {
            let Document { body, .. } = document;
            match body {
                Body::Chirotope(raw) => covectors_of_map(rt, alloc, raw),
                _ => Err(NotRead::Kind),
            }
        }
        Err(ParseError::Line { line, code }) => Err(NotRead::Line { line, code }),
        Err(ParseError::Memory) => Err(NotRead::Memory),
    }
}

/// The covectors of the oriented matroid of a map, if the map is a chirotope.
fn covectors_of_map<R: Threads + Sync>(
    rt: &R,
    alloc: Global,
    raw: RawMap,
) -> Result<Covectors, NotRead>
    requires low { 1 ≤ raw.elements }
    requires high { raw.elements ≤ MAX_ELEMENTS }
    requires whole { IsMapOn raw.elements raw }
    ensures covectors { IfOk result (AreCovectorsOfMap (map_of raw)) }
    ensures cause { IfErr result (IsCauseOfMap raw) }
{
    match check(rt, raw) {
        Ok(chirotope) => match chirotope_to_covectors(alloc, &chirotope) {
            Ok(covectors) => Ok(covectors),
            Err(error) => match error {
                ConvertError::TooMany { limit } => Err(NotRead::TooMany { limit }),
                _ => Err(NotRead::from(error.memory_alone())),
            },
        },
        Err(bad) => Err(NotRead::Axioms(bad.why)),
    }
}
