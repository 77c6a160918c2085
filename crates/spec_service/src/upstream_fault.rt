//! Why the upstream registry could not be asked for the schema of an id.

/// Why the upstream registry could not be asked for the schema of an id.
#[derive(Clone, Copy, Debug, PartialEq, Eq)]
pub enum UpstreamFault {
    /// Its name has no address, or no connection was made.
    Unreached,
    /// It did not answer in time.
    Late,
    /// It answered otherwise than its API says.
    BadAnswer,
    /// More requests wait for it than may.
    Busy,
}

impl UpstreamFault {
    ghost use Rattle.std.specs.Prelude.{◌≡◌};
    ghost use Rattle.spec_service.specs.UpstreamFault.{name_of};

    /// Returns its name, as answers show it.
    pub fn name(self) -> &'static str
        ensures { result.now ≡ name_of self }
    {
        match self {
            UpstreamFault::Unreached => "not reached",
            UpstreamFault::Late => "no answer in time",
            UpstreamFault::BadAnswer => "bad answer",
            UpstreamFault::Busy => "too many requests wait",
        }
    }
}
