//! Answering `debug`, from the payload's line on.

ghost use Rattle.std.specs.Prelude.{◌≢◌, ◌++◌, ◌∷◌, [], string_bytes, IfErr, IfOk};
ghost use Rattle.spec_lines.specs.Lines.{lines};
ghost use Rattle.spec_lines.specs.Output.{IsDebug};
ghost use Rattle.spec_lines.specs.Refusal.{text_of};
ghost use Rattle.spec_lines.specs.declared.status.Status.TheVariants.{Answered, Refused};

use crate::refusal::Refusal;
use avro_types::Nodes;
use std::alloc::Global;

/// Returns the answers to the commands of a debugger, which follow the line of a payload.
pub(crate) fn debug(
    alloc: Global,
    writer: &Nodes,
    reader: &Nodes,
    later: &[u8],
) -> Result<String, Refusal>
    ensures ok { IfOk result
        (λ output. IsDebug writer.now reader.now (lines later.now) (string_bytes output) Answered) }
    ensures err { IfErr result (λ e. e ≢ Refusal.NoMemory →
        IsDebug writer.now reader.now (lines later.now) (text_of e ++ 10 ∷ []) Refused) }
{
    crate::debug(alloc, writer, reader, later)
}
