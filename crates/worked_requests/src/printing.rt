//! The lines that are printed for answers.

use crate::service::Served;
use crate::text::push_escaped;
use gateway_server::RunError;
use std::alloc::Global;

/// From how many equal bytes in a row on a message's byte is printed once, with their number.
const LEAST_RUN: usize = 1_000;

/// Returns the head of an answer without the empty line that ends it, and the body. `None` where there is no empty
/// line in it.
fn head_and_body(answer: &[u8]) -> Option<(&[u8], &[u8])> {
    for at in 0..answer.len() {
        if let Some(body) = answer[at..].strip_prefix(b"\r\n\r\n") {
            return Some((&answer[..at], body));
        }
    }
    None
}

/// Returns whether the head of an answer says that the body is a message.
fn is_of_message(head: &[u8]) -> bool {
    match std::str::from_utf8(head) {
        Ok(head) => head.contains("\r\ncontent-type: application/octet-stream\r\n"),
        Err(_) => false,
    }
}

/// Appends equal bytes in hexadecimal: each, or where there are `LEAST_RUN` and more, `N*` and one, between backticks.
fn push_run(alloc: Global, output: &mut Vec<u8>, run: &[u8]) -> Result<(), RunError> {
    match run {
        [first, ..] if run.len() >= LEAST_RUN => {
            let count = run.len();
            let text = format!(in alloc; "`{count}*{first:02x}`")?;
            Ok(output.extend_from_slice(text.as_bytes())?)
        }
        _ => Ok(output.extend_from_slice(hex::encode(alloc, run)?.as_bytes())?),
    }
}

/// Appends bytes in hexadecimal, the longest runs of equal ones shortened.
fn push_hexadecimal(alloc: Global, output: &mut Vec<u8>, bytes: &[u8]) -> Result<(), RunError> {
    for run in bytes.chunk_by(|first, second| first == second) {
        push_run(alloc, output, run)?;
    }
    Ok(())
}

/// Appends the status and the body of an answer, or all its bytes where it has no head.
fn push_short(alloc: Global, output: &mut Vec<u8>, answer: &[u8]) -> Result<(), RunError> {
    let Some((head, body)) = head_and_body(answer) else {
        return push_escaped(alloc, output, answer);
    };
    let status = head.get(9..12).unwrap_or(b"");
    output.extend_from_slice(status)?;
    output.push(b' ')?;
    if is_of_message(head) {
        output.push(b'=')?;
        push_hexadecimal(alloc, output, body)
    } else {
        Ok(output.extend_from_slice(body)?)
    }
}

/// Appends the line of an answer.
pub(crate) fn push_answer(
    alloc: Global,
    output: &mut Vec<u8>,
    answer: &[u8],
    shows_whole: bool,
) -> Result<(), RunError> {
    if shows_whole {
        push_escaped(alloc, output, answer)?;
    } else {
        push_short(alloc, output, answer)?;
    }
    Ok(output.push(b'\n')?)
}

/// Appends the line of a result of a request that is not as it should be.
pub(crate) fn push_difference(
    alloc: Global,
    output: &mut Vec<u8>,
    manner: &str,
    served: &Served,
) -> Result<(), RunError> {
    let start = match &served.status {
        Ok(status) => format!(in alloc; "DIFFERS {manner}: {status}, ")?,
        Err(error) => format!(in alloc; "DIFFERS {manner}: {error}, ")?,
    };
    output.extend_from_slice(start.as_bytes())?;
    push_answer(alloc, output, &served.bytes, true)
}
