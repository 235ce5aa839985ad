ghost use Rattle.std.specs.Prelude.{◌≡◌};
ghost use Rattle.sp_frame.specs.Status.{number_of};

/// How a run ended.
#[derive(Clone, Copy, Debug, PartialEq, Eq)]
pub enum Status {
    /// The command's work was done.
    Ok,
    /// The command's work was done, and something was refused by it.
    Refused,
    /// A text breaks a rule.
    Malformed,
    /// The words are no command.
    Words,
    /// A file isn't there.
    Missing,
    /// A file that is there can't be read.
    ReadFault,
    /// The report can't be written.
    WriteFault,
    /// A quantity exceeds its greatest value.
    Limit,
    /// Two changes of one invocation give a place two values.
    Conflict,
    /// Memory was refused.
    Memory,
    /// An assertion is false in an instance.
    NotAdmissible,
}

impl Status {
    /// The program's exit status.
    pub fn code(&self) -> u8
        ensures { result ≡ number_of self.now }
    {
        match self {
            Status::Ok => 0,
            Status::Refused => 1,
            Status::Malformed => 2,
            Status::Words => 3,
            Status::Missing => 4,
            Status::ReadFault => 5,
            Status::WriteFault => 6,
            Status::Limit => 7,
            Status::Conflict => 8,
            Status::Memory => 9,
            Status::NotAdmissible => 10,
        }
    }
}
