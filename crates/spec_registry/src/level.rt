//! Levels of compatibility.

ghost use Rattle.std.specs.Prelude.{◌≡◌};
ghost use Rattle.spec_registry.specs.Level.{is_transitive, level_name, new_reads_old, old_reads_new};

/// Which of a subject's versions a new schema has to go together with, and how ("Compatibility types").
#[derive(Clone, Copy, Debug, PartialEq, Eq)]
pub enum Level {
    Backward,
    BackwardTransitive,
    Forward,
    ForwardTransitive,
    Full,
    FullTransitive,
    None,
}

impl Level {
    /// Returns its name, as the API has it.
    pub fn name(self) -> &'static str
        ensures { result.now ≡ level_name self }
    {
        match self {
            Level::Backward => "BACKWARD",
            Level::BackwardTransitive => "BACKWARD_TRANSITIVE",
            Level::Forward => "FORWARD",
            Level::ForwardTransitive => "FORWARD_TRANSITIVE",
            Level::Full => "FULL",
            Level::FullTransitive => "FULL_TRANSITIVE",
            Level::None => "NONE",
        }
    }

    /// Returns whether a new schema has to read what an older one wrote.
    pub fn new_reads_old(self) -> bool
        ensures { result ≡ new_reads_old self }
    {
        match self {
            Level::Backward | Level::BackwardTransitive => true,
            Level::Full | Level::FullTransitive => true,
            Level::Forward | Level::ForwardTransitive | Level::None => false,
        }
    }

    /// Returns whether an older schema has to read what a new one writes.
    pub fn old_reads_new(self) -> bool
        ensures { result ≡ old_reads_new self }
    {
        match self {
            Level::Forward | Level::ForwardTransitive => true,
            Level::Full | Level::FullTransitive => true,
            Level::Backward | Level::BackwardTransitive | Level::None => false,
        }
    }

    /// Returns whether all versions are compared, and not only the latest.
    pub fn is_transitive(self) -> bool
        ensures { result ≡ is_transitive self }
    {
        match self {
            Level::BackwardTransitive | Level::ForwardTransitive | Level::FullTransitive => true,
            Level::Backward | Level::Forward | Level::Full | Level::None => false,
        }
    }
}
