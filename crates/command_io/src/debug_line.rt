//! What a line of `debug` asks for.

ghost use Rattle.std.specs.Prelude.{◌≡◌};
ghost use Rattle.spec_lines.specs.Reading.{debug_line, debug_line_of_kind};
ghost use Rattle.command_io.specs.Words.{words_left};

use crate::debug_kind::{DebugKind, debug_kind_named};
use crate::numbers::{last_number, last_rows};
use crate::words::{at_end, first_word};
pub use spec_lines::DebugLine;

/// Returns the line of a kind, by the words that are left; `None` where they do not fit it.
fn line_of_kind(kind: DebugKind, left: Option<&str>) -> Option<DebugLine>
    ensures { result ≡ debug_line_of_kind kind (words_left left.entry) }
{
    match kind {
        DebugKind::Break => last_number(left).map(DebugLine::Break),
        DebugKind::Clear => last_number(left).map(DebugLine::Clear),
        DebugKind::Step => last_rows(left).map(DebugLine::Step),
        DebugKind::Go => last_rows(left).map(DebugLine::Go),
        DebugKind::Show => at_end(DebugLine::Show, left),
        DebugKind::List => at_end(DebugLine::List, left),
    }
}

/// Returns what a line of `debug` asks for. `None` where it has none of the forms, or is no text.
#[tactic(auto, unfolding(spec_lines::specs::Reading::debug_line, spec_lines::specs::Reading::debug_line_in))]
pub fn read_debug_line(line: &[u8]) -> Option<DebugLine>
    ensures { result ≡ debug_line line.now }
{
    let (word, left) = first_word(line)?;
    let kind = debug_kind_named(word)?;
    line_of_kind(kind, left)
}
