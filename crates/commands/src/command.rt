//! Reading the input, making the output, writing it.

ghost use Rattle.std.specs.Prelude.{◌≡◌, ◌≢◌, ◌++◌, ◌∷◌, [], IfErr, IfOk, string_bytes};
ghost use Rattle.std.specs.Io.KnownBytes.{Keeps};
ghost use Rattle.spec_lines.specs.Output.{IsOutput};
ghost use Rattle.spec_lines.specs.Refusal.{text_of};
ghost use Rattle.commands.specs.Traffic.{Answers, BeginsToAnswer};
ghost use Rattle.spec_lines.specs.declared.status.Status.TheVariants.{Answered, Refused};

use crate::compile::compile;
use crate::debugging::debug;
use crate::refusal::{Refusal, refusal_line};
use crate::replay;
use crate::running::run_listed;
use crate::schemas::schemas_of;
use crate::transcode::transcode;
use command_io::{RunError, read_all, write_whole};
use command_line::Verb;
use spec_lines::Status;
use std::alloc::{AllocError, Global};
use std::io::{Read, Write};

/// Returns the output for an input that is answered, or why it is not.
fn answered(alloc: Global, verb: &Verb, input: &[u8]) -> Result<String, Refusal>
    ensures ok { IfOk result (λ output. IsOutput verb.now input.now (string_bytes output) Answered) }
    ensures err { IfErr result (λ e. e ≢ Refusal.NoMemory →
        IsOutput verb.now input.now (text_of e ++ 10 ∷ []) Refused) }
{
    match verb {
        Verb::Transcode => {
            let schemas = schemas_of(alloc, input)?;
            let (writer, reader) = (schemas.writer.nodes(), schemas.reader.nodes());
            transcode(alloc, writer, reader, schemas.later)
        }
        Verb::Compile { image } => {
            let schemas = schemas_of(alloc, input)?;
            let (writer, reader) = (schemas.writer.nodes(), schemas.reader.nodes());
            compile(alloc, writer, reader, *image)
        }
        Verb::Run { steps } => run_listed(alloc, input, *steps),
        Verb::Debug => {
            let schemas = schemas_of(alloc, input)?;
            let (writer, reader) = (schemas.writer.nodes(), schemas.reader.nodes());
            debug(alloc, writer, reader, schemas.later)
        }
        Verb::Replay => Ok(replay(alloc, input)?),
    }
}

/// Returns the output for an input, and the status.
fn output_of(alloc: Global, verb: &Verb, input: &[u8]) -> Result<(String, Status), AllocError>
    ensures { IfOk result (λ r. IsOutput verb.now input.now (string_bytes r.0) r.1) }
{
    match answered(alloc, verb, input) {
        Ok(output) => Ok((output, Status::Answered)),
        Err(refusal) => Ok((refusal_line(refusal, alloc)?, Status::Refused)),
    }
}

/// Reads the whole input, makes the whole output, and then writes it. Returns the status.
///
/// After `Read` or `NoMemory` nothing is written, after `Write` a beginning of the output.
pub fn run<R: Read, W: Write>(
    alloc: Global,
    verb: &Verb,
    reader: &mut R,
    writer: &mut W,
) -> Result<Status, RunError>
    ensures ok { IfOk result (Answers verb.now (R.remaining reader.old) (W.contents writer.old)
        (W.contents writer.new)) }
    ensures read { result ≡ Err RunError.Read → Keeps (W.contents writer.old) (W.contents writer.new) }
    ensures memory { result ≡ Err RunError.NoMemory → Keeps (W.contents writer.old) (W.contents writer.new) }
    ensures write { result ≡ Err RunError.Write →
        BeginsToAnswer verb.now (R.remaining reader.old) (W.contents writer.old) (W.contents writer.new) }
{
    let input = read_all(alloc, reader)?;
    let (output, status) = output_of(alloc, verb, &input)?;
    write_whole(writer, output.as_bytes())?;
    Ok(status)
}
