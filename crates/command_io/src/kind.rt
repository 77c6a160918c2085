//! The kind of a line of `replay` by its first word.

ghost use Rattle.std.specs.Prelude.{◌≡◌};
ghost use Rattle.spec_lines.specs.Reading.{kind_named};

pub use spec_lines::Kind;

/// All kinds.
pub(crate) const KINDS: [Kind; 16] = [
    Kind::Register,
    Kind::Level,
    Kind::Publish,
    Kind::Begin,
    Kind::Piece,
    Kind::Finish,
    Kind::Slice,
    Kind::Steal,
    Kind::Break,
    Kind::Clear,
    Kind::Refuse,
    Kind::Walk,
    Kind::Go,
    Kind::Show,
    Kind::List,
    Kind::Result,
];

/// Returns the kind that a word names; `None` where it names none.
#[tactic(auto, unfolding(spec_lines::specs::Reading::kind_named))]
pub(crate) fn kind_named(word: &str) -> Option<Kind>
    ensures { result ≡ kind_named word.now }
{
    KINDS.iter().copied().find(|kind| word == kind.name())
}
