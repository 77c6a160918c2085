//! The questions, each of the lines that it is of.

ghost use Rattle.std.specs.Prelude.{◌≡◌, ◌≢◌, length, string_bytes, IfErr, IfOk, OnOk, []};
ghost use Rattle.schema_report.specs.Reading.{IsOfText};
ghost use Rattle.schema_report.specs.Reports.{AnswersCheck, AnswersNodes, AreChecked, IsRefused, compatible_or, verdict_of};

use crate::checking::{Side, push_check};
use crate::listing::list_nodes;
use crate::reading::{PathedSchema, read_schema};
use crate::refusal::Refusal;
use crate::report::{Report, Verdict, bad_line};
use std::alloc::{AllocError, Global};

/// Which of two schemas, an older and a newer one, reads what the other writes (Confluent Schema Registry,
/// "Compatibility").
#[derive(Clone, Copy, Debug, PartialEq, Eq)]
pub enum Level {
    /// The newer schema, which is the second, reads.
    Backward,
    /// The older schema, which is the first, reads.
    Forward,
    /// Each reads what the other writes.
    Full,
}

/// Returns the report of a refusal of a line: that it is no schema, and where its fault is.
pub(crate) fn refused(alloc: Global, refusal: Refusal, text: &[u8]) -> Result<Report, AllocError>
    requires { IsOfText refusal text.now }
    ensures { IfOk result (λ report. IsRefused refusal text.now report) }
{
    match refusal {
        Refusal::NoMemory => Err(AllocError),
        Refusal::BadSchema { line, error } => Ok(Report {
            text: bad_line(alloc, line, error, text)?,
            verdict: Verdict::No,
        }),
    }
}

/// Returns a line for each node of the schema in a line, in order of their numbers: the number, what the node is and
/// its full name, and the path in the line's JSON value to where it is declared.
///
/// Where the line is no schema the report says so, and the verdict is no.
pub fn nodes_report(alloc: Global, line: &[u8]) -> Result<Report, AllocError>
    ensures { IfOk result (λ report. AnswersNodes line.now (string_bytes report.text) report.verdict) }
{
    let read = match read_schema(alloc, line, 1) {
        Ok(read) => read,
        Err(refusal) => return refused(alloc, refusal, line),
    };
    let text = list_nodes(alloc, read.schema.nodes(), &read.paths)?;
    Ok(Report {
        text,
        verdict: Verdict::Yes,
    })
}

/// Returns the side of a check that a schema is.
fn side_of(read: &PathedSchema) -> Side<'_>
    ensures nodes { result.nodes.now ≡ read.now.schema.nodes }
    ensures paths { result.paths.now ≡ read.now.paths.items }
{
    Side {
        nodes: read.schema.nodes(),
        paths: &read.paths,
    }
}

/// Appends the lines of the bad pairs of two schemas at a level. Returns whether there is none.
fn push_level(
    alloc: Global,
    output: &mut String,
    level: Level,
    first: &Side,
    second: &Side,
) -> Result<bool, AllocError>
    requires first { length first.now.paths.now ≡ length first.now.nodes.now }
    requires second { length second.now.paths.now ≡ length second.now.nodes.now }
    ensures { IfOk result (λ is_safe. AreChecked level first.now second.now (string_bytes output.old)
        (string_bytes output.new) is_safe) }
{
    match level {
        Level::Backward => push_check(alloc, output, "", first, second),
        Level::Forward => push_check(alloc, output, "", second, first),
        Level::Full => {
            let backward = push_check(alloc, output, "BACKWARD ", first, second)?;
            let forward = push_check(alloc, output, "FORWARD ", second, first)?;
            Ok(backward && forward)
        }
    }
}

/// Returns the report of a check: the one word where there is no bad pair, and else their lines.
fn checked(alloc: Global, lines: String, is_safe: bool) -> Result<Report, AllocError>
    ensures { IfOk result (λ report. (string_bytes report.text ≡ compatible_or is_safe (string_bytes lines))
        × (report.verdict ≡ verdict_of is_safe)) }
{
    if is_safe {
        return Ok(Report {
            text: String::from_str(alloc, "compatible\n")?,
            verdict: Verdict::Yes,
        });
    }
    Ok(Report {
        text: lines,
        verdict: Verdict::No,
    })
}

/// Returns whether the schemas in two lines are compatible at a level, or a line for each bad pair of nodes, in the
/// order in which they are reached first: the kind, the writer's node and the reader's, their paths, and what it is
/// about in words.
///
/// At `Full` the level that a pair is bad for is before each line. Where a line is no schema the report says so, for
/// the first line before the second, and the verdict is no. The verdict is yes where the schemas are compatible.
pub fn check_report(
    alloc: Global,
    level: Level,
    first: &[u8],
    second: &[u8],
) -> Result<Report, AllocError>
    ensures { IfOk result (λ report. AnswersCheck level first.now second.now (string_bytes report.text)
        report.verdict) }
{
    let older = match read_schema(alloc, first, 1) {
        Ok(read) => read,
        Err(refusal) => return refused(alloc, refusal, first),
    };
    let newer = match read_schema(alloc, second, 2) {
        Ok(read) => read,
        Err(refusal) => return refused(alloc, refusal, second),
    };
    let mut lines = String::new(alloc);
    let is_safe = push_level(alloc, &mut lines, level, &side_of(&older), &side_of(&newer))?;
    checked(alloc, lines, is_safe)
}
