//! The requests of rows.

use crate::text::{unescaped, written_out};
use gateway_server::RunError;
use std::alloc::Global;

/// A request, and how its answer is printed.
#[derive(Drop)]
pub(crate) struct Row {
    pub(crate) request: Vec<u8>,
    /// Whether its sender could go on, so that no byte after the request may be waited for.
    pub(crate) is_open: bool,
    /// Whether the whole answer is printed.
    pub(crate) shows_whole: bool,
    /// Whether it is answered at once alone, in none of the other manners.
    pub(crate) is_once: bool,
}

/// Returns the bytes of a body: text, or hexadecimal after `=`.
fn body_of(alloc: Global, text: &str) -> Result<Vec<u8>, RunError> {
    match text.strip_prefix('=') {
        Some(digits) => hex::decode(alloc, digits).map_err(|_| RunError::Read),
        None => Ok(text.as_bytes().to_vec(alloc)?),
    }
}

/// Returns the request of a method, a path, and maybe a body after them, whose length the head then says.
fn request_of(alloc: Global, line: &str) -> Result<Vec<u8>, RunError> {
    let (method, rest) = line.split_once(' ').ok_or(RunError::Read)?;
    let (path, body) = match rest.split_once(' ') {
        Some((path, body)) => (path, Some(body_of(alloc, body)?)),
        None => (rest, None),
    };
    let line = format!(in alloc; "{method} {path} HTTP/1.1\r\n")?;
    let mut request = line.into_bytes();
    if let Some(body) = &body {
        let length = body.len();
        let field = format!(in alloc; "content-length: {length}\r\n")?;
        request.extend_from_slice(field.as_bytes())?;
    }
    request.extend_from_slice(b"\r\n")?;
    if let Some(body) = &body {
        request.extend_from_slice(body)?;
    }
    Ok(request)
}

/// Returns a text without a word in front of it, and whether it had that.
fn without<'a>(word: &str, text: &'a str) -> (&'a str, bool) {
    match text.strip_prefix(word) {
        Some(rest) => (rest, true),
        None => (text, false),
    }
}

/// Returns the row of a line.
pub(crate) fn row_of(alloc: Global, line: &str) -> Result<Row, RunError> {
    let line = written_out(alloc, line)?;
    let (line, shows_whole) = without("whole ", &line);
    let (line, is_once) = without("once ", line);
    let (line, stays_open) = without("open ", line);
    let (line, is_raw) = without("raw ", line);
    let request = if is_raw {
        unescaped(alloc, line)?
    } else {
        request_of(alloc, line)?
    };
    Ok(Row {
        request,
        is_open: stays_open || !is_raw,
        shows_whole,
        is_once,
    })
}
