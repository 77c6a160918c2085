//! Tests and bench; a program.
//!
//! Executes commands of `avrogate`, one after another, each on its own part of standard input, and prints what they
//! write.
//!
//! A line of `# ` and a command as it is typed begins a part, and the lines up to the next such line are its input,
//! the last without its LF where a backslash ends it. In these, between backticks, `3*ab` is `ababab`, with 1, 2 and
//! 3 in place of `%` and an LF in place of `\n`, and `=ff` is the byte 255. Where a command begins with the word
//! `counted`, the lines and bytes that it writes are counted, and not printed. Of words that ask for nothing, and of
//! those that ask for help, the number that `avrogate` ends with is printed alone.
#![tactic(auto)]

use command_line::{Task, cli, task_of};
use commands::{RunError, Status, Verb, run};
use std::alloc::{AllocError, Global};
use std::io::{Read, Write};
use std::process::ExitCode;

/// Appends a text `times` times, with the numbers from 1 on in place of `%`.
fn push_times(
    alloc: Global,
    input: &mut Vec<u8>,
    times: usize,
    text: &str,
) -> Result<(), AllocError> {
    if !text.contains('%') {
        return input.extend_from_slice(text.repeat(alloc, times)?.as_bytes());
    }
    for number in 1..=times {
        let digits = format!(in alloc; "{number}")?;
        input.extend_from_slice(text.replace(alloc, '%', &digits)?.as_bytes())?;
    }
    Ok(())
}

/// Appends what two backticks enclose, written out: bytes in hexadecimal, or the repetitions of a text.
fn push_quoted(alloc: Global, input: &mut Vec<u8>, quoted: &str) -> Result<(), RunError> {
    if let Some(digits) = quoted.strip_prefix('=') {
        let bytes = hex::decode(alloc, digits).map_err(|_| RunError::Read)?;
        return Ok(input.extend_from_slice(&bytes)?);
    }
    let (times, text) = quoted.split_once('*').ok_or(RunError::Read)?;
    let times = times.parse::<usize>().map_err(|_| RunError::Read)?;
    let text = text.replace(alloc, "\\n", "\n")?;
    Ok(push_times(alloc, input, times, &text)?)
}

/// Appends a line of a command's input, with its LF but where it ends with a backslash.
fn push_line(alloc: Global, input: &mut Vec<u8>, line: &str) -> Result<(), RunError> {
    let (line, end) = match line.strip_suffix('\\') {
        Some(line) => (line, ""),
        None => (line, "\n"),
    };
    for (place, text) in line.split('`').enumerate() {
        if place % 2 == 0 {
            input.extend_from_slice(text.as_bytes())?;
        } else {
            push_quoted(alloc, input, text)?;
        }
    }
    Ok(input.extend_from_slice(end.as_bytes())?)
}

/// Appends how many lines and bytes a text has.
fn push_counts(alloc: Global, output: &mut Vec<u8>, text: &[u8]) -> Result<(), AllocError> {
    let lines = text.iter().filter(|byte| **byte == b'\n').count();
    let bytes = text.len();
    let counts = format!(in alloc; "{lines} lines, {bytes} bytes\n")?;
    output.extend_from_slice(counts.as_bytes())
}

/// Returns what words ask for, or else the number that the program ends with.
fn asked(alloc: Global, words: &str) -> Result<Result<Verb, i32>, AllocError> {
    let words: Vec<&str> = words.split(' ').collect(alloc)?;
    match cli(alloc)?.try_get_matches_from(words.as_slice()) {
        Ok(matches) => match task_of(&matches) {
            Some(Task::Lines(verb)) => Ok(Ok(verb)),
            _ => Ok(Err(i32::from(Status::BadWords.code()))),
        },
        Err(error) => Ok(Err(error.exit_code())),
    }
}

/// Appends what the command of some words writes for an input, and returns the number that it ends with.
fn obey(
    alloc: Global,
    output: &mut Vec<u8>,
    words: &str,
    mut input: &[u8],
) -> Result<i32, RunError> {
    match asked(alloc, words)? {
        Ok(verb) => Ok(i32::from(run(alloc, &verb, &mut input, output)?.code())),
        Err(status) => Ok(status),
    }
}

/// Appends what a command writes for an input, or the counts of that, and returns the number that it ends with.
fn push_written(
    alloc: Global,
    output: &mut Vec<u8>,
    words: &str,
    input: &[u8],
) -> Result<i32, RunError> {
    let Some(words) = words.strip_prefix("counted ") else {
        return obey(alloc, output, words, input);
    };
    let mut written = Vec::new(alloc);
    let status = obey(alloc, &mut written, words, input)?;
    push_counts(alloc, output, &written)?;
    Ok(status)
}

/// Appends the input of a command, whose lines these are.
fn push_input(alloc: Global, input: &mut Vec<u8>, lines: &str) -> Result<(), RunError> {
    for line in lines.split('\n') {
        push_line(alloc, input, line)?;
    }
    Ok(())
}

/// Appends the words of a part, what their command writes for the lines under them, and the number that it ends with.
fn push_part(alloc: Global, output: &mut Vec<u8>, part: &str) -> Result<(), RunError> {
    let mut input = Vec::new(alloc);
    let words = match part.split_once('\n') {
        Some((words, lines)) => {
            push_input(alloc, &mut input, lines)?;
            words
        }
        None => part,
    };
    let header = format!(in alloc; "# {words}\n")?;
    output.extend_from_slice(header.as_bytes())?;
    let status = push_written(alloc, output, words, &input)?;
    let end = format!(in alloc; "status {status}\n")?;
    Ok(output.extend_from_slice(end.as_bytes())?)
}

/// Returns what the commands of some rows write, each after the line of its words.
fn written(alloc: Global, rows: &str) -> Result<Vec<u8>, RunError> {
    let rows = rows.strip_prefix("# ").unwrap_or(rows);
    let rows = rows.strip_suffix('\n').unwrap_or(rows);
    let mut output = Vec::new(alloc);
    for part in rows.split("\n# ") {
        push_part(alloc, &mut output, part)?;
    }
    Ok(output)
}

/// Reads the rows, and prints what their commands write.
fn answer(rt: &(impl Input + Print + AllocGlobal)) -> Result<(), RunError> {
    let mut rows = String::new(rt.alloc());
    rt.reader()
        .read_to_string(&mut rows)
        .map_err(|_| RunError::Read)?;
    let output = written(rt.alloc(), &rows)?;
    std::io::writer(rt)
        .write_all(&output)
        .map_err(|_| RunError::Write)
}

fn main(rt: HostRuntime) -> ExitCode {
    match answer(&rt) {
        Ok(()) => ExitCode::from(0),
        Err(_) => ExitCode::from(1),
    }
}
