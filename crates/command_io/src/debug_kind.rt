//! The kind of a line of `debug` by its first word.

ghost use Rattle.std.specs.Prelude.{◌≡◌};
ghost use Rattle.spec_lines.specs.Reading.{debug_kind_named};

pub use spec_lines::DebugKind;

/// All kinds.
pub(crate) const DEBUG_KINDS: [DebugKind; 6] = [
    DebugKind::Break,
    DebugKind::Clear,
    DebugKind::Step,
    DebugKind::Go,
    DebugKind::Show,
    DebugKind::List,
];

/// Returns the kind that a word names; `None` where it names none.
#[tactic(auto, unfolding(spec_lines::specs::Reading::debug_kind_named))]
pub(crate) fn debug_kind_named(word: &str) -> Option<DebugKind>
    ensures { result ≡ debug_kind_named word.now }
{
    DEBUG_KINDS.iter().copied().find(|kind| word == kind.name())
}
