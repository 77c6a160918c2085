//! The first words of lines of `replay`.

ghost use Rattle.std.specs.Prelude.{◌≡◌};
ghost use Rattle.spec_lines.specs.Reading.{kind_name};

/// The kind of a line of `replay`, which its first word names.
#[derive(Clone, Copy, Debug, PartialEq, Eq)]
pub enum Kind {
    Register,
    Level,
    Publish,
    Begin,
    Piece,
    Finish,
    Slice,
    Steal,
    Break,
    Clear,
    Refuse,
    Walk,
    Go,
    Show,
    List,
    Result,
}

impl Kind {
    /// Returns its word.
    pub fn name(self) -> &'static str
        ensures { result.now ≡ kind_name self }
    {
        match self {
            Kind::Register => "register",
            Kind::Level => "level",
            Kind::Publish => "publish",
            Kind::Begin => "begin",
            Kind::Piece => "piece",
            Kind::Finish => "finish",
            Kind::Slice => "slice",
            Kind::Steal => "steal",
            Kind::Break => "break",
            Kind::Clear => "clear",
            Kind::Refuse => "refuse",
            Kind::Walk => "walk",
            Kind::Go => "go",
            Kind::Show => "show",
            Kind::List => "list",
            Kind::Result => "result",
        }
    }
}
