//! The calls of a device, and at which of them it fails.

use std::io;
use std::io::ErrorKind;

/// What is wrong with a device.
#[derive(Clone, Copy, Debug, PartialEq, Eq)]
pub(crate) enum Trouble {
    Nothing,
    /// A signal interrupts it before each call.
    Interruptions,
    /// A signal interrupts each call.
    InterruptedForGood,
    /// It would block at each second call, for which it is asked once more.
    Blocks,
    /// It fails at its call with this number, from 1 on.
    FailsAt(u32),
    /// It moves no byte at its call with this number.
    MovesNothingAt(u32),
}

/// How a device behaves.
#[derive(Clone, Copy, Debug, PartialEq, Eq)]
pub(crate) struct Behaviour {
    /// How many bytes it moves at one call at most.
    pub(crate) piece: usize,
    pub(crate) trouble: Trouble,
}

/// A device that moves all bytes at once.
pub(crate) const AT_ONCE: Behaviour = Behaviour {
    piece: usize::MAX,
    trouble: Trouble::Nothing,
};

/// The calls of a device.
#[derive(Clone, Copy, Debug, PartialEq, Eq)]
pub(crate) struct Calls {
    behaviour: Behaviour,
    made: u32,
    was_interrupted: bool,
    /// Whether the call was made at which it fails.
    pub(crate) has_failed: bool,
}

impl Calls {
    /// Returns the calls of a device that has made none.
    pub(crate) fn new(behaviour: Behaviour) -> Calls {
        Calls {
            behaviour,
            made: 0,
            was_interrupted: false,
            has_failed: false,
        }
    }

    /// Returns an error of that kind, and notes that the device has failed.
    pub(crate) fn fail(&mut self, kind: ErrorKind) -> io::Error {
        self.has_failed = true;
        io::Error::from(kind)
    }

    /// Counts one more call that is not interrupted, and returns how many bytes it may move.
    pub(crate) fn make(&mut self) -> io::Result<usize> {
        self.made = self.made.saturating_add(1);
        match self.behaviour.trouble {
            Trouble::FailsAt(call) if call == self.made => {
                Err(self.fail(ErrorKind::ConnectionReset))
            }
            Trouble::MovesNothingAt(call) if call == self.made => Ok(0),
            _ => Ok(self.behaviour.piece),
        }
    }

    /// Counts one more call, which may be interrupted, and returns how many bytes it may move.
    pub(crate) fn make_or_interrupt(&mut self) -> io::Result<usize> {
        match self.behaviour.trouble {
            Trouble::InterruptedForGood => Err(self.fail(ErrorKind::Interrupted)),
            Trouble::Interruptions if !self.was_interrupted => {
                self.was_interrupted = true;
                Err(io::Error::from(ErrorKind::Interrupted))
            }
            Trouble::Blocks if !self.was_interrupted => {
                self.was_interrupted = true;
                Err(io::Error::from(ErrorKind::WouldBlock))
            }
            _ => {
                self.was_interrupted = false;
                self.make()
            }
        }
    }
}
