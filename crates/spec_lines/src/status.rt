//! How the program ends.

ghost use Rattle.std.specs.Prelude.{◌≡◌};
ghost use Rattle.spec_lines.specs.Status.{exit_code_of};

/// How the program ends.
#[derive(Clone, Copy, Debug, PartialEq, Eq)]
pub enum Status {
    /// The input was answered, or help was asked for.
    Answered,
    /// The one line that was written says why nothing was answered.
    Refused,
    /// The words are no command.
    BadWords,
    /// A read or a write failed.
    BadTraffic,
    NoMemory,
}

impl Status {
    /// Returns its number, as a program exits with it.
    pub fn code(self) -> u8
        ensures { result ≡ exit_code_of self }
    {
        match self {
            Status::Answered => 0,
            Status::Refused => 1,
            Status::BadWords => 2,
            Status::BadTraffic => 3,
            Status::NoMemory => 4,
        }
    }
}
