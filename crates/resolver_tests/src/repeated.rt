//! Texts of rows, in which what is between tildes is repeated, as many times as its first word says.

use std::alloc::AllocError;

/// Appends a piece with a number in place of each `#`.
fn push_numbered(text: &mut String, piece: &str, number: u32) -> Result<(), AllocError> {
    for (place, part) in piece.split('#').enumerate() {
        if place > 0 {
            write!(text, "{number}")?;
        }
        text.push_str(part)?;
    }
    Ok(())
}

/// Appends a piece as many times as its first word says, each time with its number, from 1 on.
fn push_repeated(text: &mut String, row: &str) -> Result<(), AllocError> {
    let (times, piece) = row.split_once(' ').unwrap_or(("", row));
    for number in 1..=times.parse::<u32>().unwrap_or(0) {
        push_numbered(text, piece, number)?;
    }
    Ok(())
}

/// Appends the text of a row, in which what is between tildes is repeated.
pub(crate) fn push_text(text: &mut String, row: &str) -> Result<(), AllocError> {
    for (number, piece) in row.split('~').enumerate() {
        if number % 2 == 0 {
            text.push_str(piece)?;
        } else {
            push_repeated(text, piece)?;
        }
    }
    Ok(())
}
