//! The first words of lines of `debug`.

ghost use Rattle.std.specs.Prelude.{◌≡◌};
ghost use Rattle.spec_lines.specs.Reading.{debug_kind_name};

/// The kind of a line of `debug`, which its first word names.
#[derive(Clone, Copy, Debug, PartialEq, Eq)]
pub enum DebugKind {
    Break,
    Clear,
    Step,
    Go,
    Show,
    List,
}

impl DebugKind {
    /// Returns its word.
    pub fn name(self) -> &'static str
        ensures { result.now ≡ debug_kind_name self }
    {
        match self {
            DebugKind::Break => "break",
            DebugKind::Clear => "clear",
            DebugKind::Step => "step",
            DebugKind::Go => "go",
            DebugKind::Show => "show",
            DebugKind::List => "list",
        }
    }
}
