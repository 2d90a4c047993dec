ghost use Rattle.std.specs.Prelude.{◌≡◌};
ghost use Rattle.om_reply.specs.Statuses.{code_of};

/// How a run ends.
#[derive(Clone, Copy)]
pub enum Status {
    /// The command was carried out, and its whole answer was written.
    Done,
    /// The input was refused, and the whole refusal was written.
    Refused,
    /// The words aren't a command, and `usage K` was written.
    Usage,
    /// The answer would exceed a limit, and the whole line that says so was written. Or `decide` reached its budget
    /// of pivots or a number that is too wide, and the whole claim with the verdict `limit` was written.
    Limit,
    /// Reading failed, and nothing was written.
    ReadFault,
    /// Writing failed, and only a part of the answer was written.
    WriteFault,
    /// Memory ran out, and nothing was written.
    NoMemory,
}

impl Status {
    /// The program's exit code: the place of the status among these seven, counted from 0.
    pub fn code(self) -> u8
        ensures { result ≡ code_of self }
    {
        match self {
            Status::Done => 0,
            Status::Refused => 1,
            Status::Usage => 2,
            Status::Limit => 3,
            Status::ReadFault => 4,
            Status::WriteFault => 5,
            Status::NoMemory => 6,
        }
    }
}
