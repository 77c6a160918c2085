//! Why there is no program of a pair.

ghost use Rattle.program_cache.specs.Pairs.{publish_error};
ghost use Rattle.std.specs.Prelude.{◌≡◌};

use crate::compiled::Compiled;
use session_core::PublishError;

/// Why there is no program of a pair of schemas.
#[derive(Clone, Copy)]
pub enum PairRefusal<'c> {
    /// The program passes a limit.
    ProgramTooLarge,
    /// The cell of the pair's ids has what another pair was compiled to, which is this.
    Clash(&'c Compiled),
    /// Memory ran out.
    NoMemory,
}

impl<'c> PairRefusal<'c> {
    /// Returns this refusal without the other pair.
    pub fn publish_error(self) -> PublishError
        ensures { result ≡ publish_error self.entry }
    {
        match self {
            PairRefusal::ProgramTooLarge => PublishError::ProgramTooLarge,
            PairRefusal::Clash(_other) => PublishError::Clash,
            PairRefusal::NoMemory => PublishError::NoMemory,
        }
    }
}
