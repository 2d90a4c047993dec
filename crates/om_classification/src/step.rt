//! What a piece adds to an answer.

ghost use Rattle.std.specs.Prelude.{◌≡◌, IfOk};
ghost use Rattle.om_classification.specs.Texts.{line_text};

use super::line::Line;
use super::texts::text_of;
use om_reply::Status;
use om_signs::NoMemory;
use std::alloc::Global;

/// What a piece adds: the text to be written, and the status: [`Status::Done`] if the run goes on.
#[derive(Drop)]
pub struct Step {
    pub text: Vec<u8>,
    pub status: Status,
}

/// The end of a run with a refusal.
pub(crate) fn ended(alloc: Global, line: Line) -> Result<Step, NoMemory>
    ensures status { IfOk result (λ step. step.status ≡ Status.Refused) }
    ensures text { IfOk result (λ step. step.text.items ≡ line_text line) }
{
    Ok(Step {
        text: text_of(alloc, &line)?,
        status: Status::Refused,
    })
}
