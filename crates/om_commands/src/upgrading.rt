//! The upgrade of a document to version 2 of the format.

ghost use Rattle.std.specs.Prelude.{IfOk};
ghost use Rattle.om_document.specs.Form.{IsInForm};
ghost use Rattle.om_commands.specs.Upgrades.{IsUpgrade};

use super::keeping::{Unkept, keep};
use om_document::Document;
use om_reply::Answer;
use om_representation::refused_line;
use om_signs::NoMemory;
use std::alloc::Global;
use std::thread::Threads;

/// The document itself, if it satisfies the axioms of its kind, and else the line that names the first violated
/// instance. No part of it is copied.
pub fn upgrade<R: Threads + Sync>(
    rt: &R,
    alloc: Global,
    document: Document,
) -> Result<Answer, NoMemory>
    requires { IsInForm document }
    ensures { IfOk result (IsUpgrade document) }
{
    match keep(rt, alloc, document) {
        Ok(document) => Ok(Answer::Upgraded(document)),
        Err(Unkept::Refused(why)) => Ok(Answer::Line(refused_line(why))),
        Err(Unkept::Memory) => Err(NoMemory),
    }
}
