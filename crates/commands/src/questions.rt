//! Reading the input, making the report, writing it.

ghost use Rattle.std.specs.Prelude.{◌≡◌, ◌≢◌, ℕ, List, string_bytes, Err, IfOk, IfSome};
ghost use Rattle.std.specs.Io.KnownBytes.{Appends, Keeps};
ghost use Rattle.commands.specs.Questions.{Answers};

use command_io::{RunError, read_all, split_line_or_empty, write_whole};
use schema_report::{Form, Level, Report, Verdict, check_report, explain_report, nodes_report};
use std::alloc::{AllocError, Global};
use std::io::{Read, Write};

/// What is asked of schemas.
#[derive(Clone, Copy, Debug, PartialEq, Eq)]
pub enum Question {
    /// What the nodes of the schema in the first line are, and where.
    Nodes,
    /// Whether the schemas in the first two lines are compatible, and where they are not.
    Check { level: Level },
    /// What becomes of every part of a message between the schemas in the first two lines.
    Explain { form: Form },
}

/// Returns the report of a question, of the first lines of an input. A line that is missing is the empty text.
fn report_of(alloc: Global, question: Question, input: &[u8]) -> Result<Report, AllocError>
    ensures { IfOk result (λ report. Answers question input.now (string_bytes report.text) report.verdict) }
{
    let (first, rest) = split_line_or_empty(input);
    let (second, _later) = split_line_or_empty(rest);
    match question {
        Question::Nodes => nodes_report(alloc, first),
        Question::Check { level } => check_report(alloc, level, first, second),
        Question::Explain { form } => explain_report(alloc, form, first, second),
    }
}

/// Reads the whole input, makes the whole report, and then writes it. Returns whether the answer is yes.
///
/// After `Read` or `NoMemory` nothing is written.
pub fn answer<R: Read, W: Write>(
    alloc: Global,
    question: Question,
    reader: &mut R,
    writer: &mut W,
) -> Result<Verdict, RunError>
    ensures answered { IfOk result (λ verdict. IfSome (R.remaining reader.old) (λ input. (text : List ℕ)
        × Answers question input text verdict × Appends (W.contents writer.old) (W.contents writer.new) text)) }
    ensures read { result ≡ Err RunError.Read → Keeps (W.contents writer.old) (W.contents writer.new) }
    ensures memory { result ≡ Err RunError.NoMemory → Keeps (W.contents writer.old) (W.contents writer.new) }
{
    let input = read_all(alloc, reader)?;
    let report = report_of(alloc, question, &input)?;
    write_whole(writer, report.text.as_bytes())?;
    Ok(report.verdict)
}
