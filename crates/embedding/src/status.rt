//! What a call comes to, as a number and in words.

ghost use Rattle.std.specs.Prelude.{◌≡◌, Some, IfSome};
ghost use Rattle.embedding.specs.declared.status.Status.{Status as Known};
ghost use Rattle.embedding.specs.Status.{code_of, words_of};

/// What a call comes to.
#[derive(Clone, Copy, Debug, PartialEq, Eq)]
pub enum Status {
    Done,
    RoomTooSmall,
    Mismatch,
    Malformed,
    OutputTooLarge,
    PayloadTooLarge,
    NoMemory,
    Closed,
    BadWriter,
    BadReader,
    ProgramTooLarge,
    CannotRead,
    BadEnvelope,
    OtherWriter,
    OutOfRange,
}

impl Status {
    /// Returns the number that a program in another language sees.
    pub fn code(self) -> u32
        ensures { result ≡ code_of self }
    {
        match self {
            Status::Done => 0,
            Status::RoomTooSmall => 1,
            Status::Mismatch => 2,
            Status::Malformed => 3,
            Status::OutputTooLarge => 4,
            Status::PayloadTooLarge => 5,
            Status::NoMemory => 6,
            Status::Closed => 7,
            Status::BadWriter => 8,
            Status::BadReader => 9,
            Status::ProgramTooLarge => 10,
            Status::CannotRead => 11,
            Status::BadEnvelope => 12,
            Status::OtherWriter => 13,
            Status::OutOfRange => 14,
        }
    }

    /// Returns the status with this number; `None` where no status has it.
    pub fn of_code(code: u32) -> Option<Status>
        ensures known { (status : Known) → code_of status ≡ code → result ≡ Some status }
        ensures is { IfSome result (λ status. code_of status ≡ code) }
    {
        let status = match code {
            0 => Status::Done,
            1 => Status::RoomTooSmall,
            2 => Status::Mismatch,
            3 => Status::Malformed,
            4 => Status::OutputTooLarge,
            5 => Status::PayloadTooLarge,
            6 => Status::NoMemory,
            7 => Status::Closed,
            8 => Status::BadWriter,
            9 => Status::BadReader,
            10 => Status::ProgramTooLarge,
            11 => Status::CannotRead,
            12 => Status::BadEnvelope,
            13 => Status::OtherWriter,
            14 => Status::OutOfRange,
            _ => return None,
        };
        Some(status)
    }

    /// Returns what it says, in words.
    pub fn words(self) -> &'static str
        ensures { result.now ≡ words_of self }
    {
        match self {
            Status::Done => "done",
            Status::RoomTooSmall => "the room is too small for the output",
            Status::Mismatch => "the reader has no place for the datum",
            Status::Malformed => "the payload is no datum of the writer's schema",
            Status::OutputTooLarge => "the output passes its limit",
            Status::PayloadTooLarge => "the payload passes its limit",
            Status::NoMemory => "out of memory",
            Status::Closed => "no pair of schemas is open",
            Status::BadWriter => "the writer's text is no schema",
            Status::BadReader => "the reader's text is no schema",
            Status::ProgramTooLarge => "the program of the pair passes a limit",
            Status::CannotRead => "the reader cannot read all data of the writer",
            Status::BadEnvelope => "the bytes are no message",
            Status::OtherWriter => "the message has the id of another writer",
            Status::OutOfRange => "the payload does not lie within the buffer",
        }
    }
}
