//! What the texts in rows of tables mean. A semicolon means LF, `@` the first line of a listing, and `{N:LINES}`
//! these lines N times, in which `#` is the number of each turn.

use std::alloc::AllocError;
use std::fmt::Write;
use std::process::Abort;

/// Appends lines, with a number where `#` asks for it.
fn push_lines(text: &mut String, lines: &str, number: usize) -> Result<(), AllocError> {
    for byte in lines.as_bytes() {
        match byte {
            b';' => text.push_str("\n")?,
            b'@' => text.push_str("avro program 1\n")?,
            b'#' => write!(text, "{number}")?,
            _ => text.push(*byte as char)?,
        }
    }
    Ok(())
}

/// Appends the lines after a count and a colon, as many times as the count says.
fn push_turns(text: &mut String, turns: &str) -> Result<(), AllocError> {
    let (many, lines) = turns.split_once(':').unwrap_or(("0", turns));
    for number in 0..many.parse::<usize>().unwrap_or(0) {
        push_lines(text, lines, number)?;
    }
    Ok(())
}

/// Appends the text that a row means.
pub(crate) fn push_text(text: &mut String, row: &str) -> Result<(), AllocError> {
    for part in row.split('{') {
        let (turns, lines) = part.split_once('}').unwrap_or(("", part));
        push_turns(text, turns)?;
        push_lines(text, lines, 0)?;
    }
    Ok(())
}

/// Asserts that what is tested of a row holds.
pub(crate) fn holds(rt: &impl Abort, is_so: bool, row: &str) {
    assert!(rt; is_so, "{row}");
}
