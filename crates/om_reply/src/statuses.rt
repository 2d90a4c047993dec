//! Which statuses let a run continue, and which of two is reported.

ghost use Rattle.std.specs.Prelude.{◌≡◌, ◌⊎◌, ◌↔◌, max, IsTrue};
ghost use Rattle.om_reply.specs.Statuses.{IsAnswered, code_of};

use super::status::Status;

/// The status with the greater exit code.
pub fn greater(a: Status, b: Status) -> Status
    ensures code { code_of result ≡ max (code_of a) (code_of b) }
    ensures either { (result ≡ a) ⊎ (result ≡ b) }
{
    if a.code() < b.code() { b } else { a }
}

/// Whether a text was written whole with this status.
pub fn is_answered(status: Status) -> bool
    ensures { IsTrue result ↔ IsAnswered status }
{
    match status {
        Status::Done | Status::Refused | Status::Usage | Status::Limit => true,
        Status::ReadFault | Status::WriteFault | Status::NoMemory => false,
    }
}
