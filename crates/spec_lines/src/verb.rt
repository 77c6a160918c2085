//! The subcommands that answer lines.

/// What to do with the input.
#[derive(Clone, Copy, Debug, PartialEq, Eq)]
pub enum Verb {
    /// Answers each payload with what the reader makes of it.
    Transcode,
    /// Answers with the program of the schemas: its listing, or its image.
    Compile { image: bool },
    /// Answers each payload with the state of a run of a listed program on it after at most this many rows.
    Run { steps: u64 },
    /// Answers the commands of a debugger, which come after two schemas and a payload.
    Debug,
    /// Answers events of a world of sessions.
    Replay,
}
