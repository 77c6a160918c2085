//! The notation of the texts of rows: repetitions between backticks, and the escapes of raw requests.

use gateway_server::RunError;
use std::alloc::Global;

/// Appends what two backticks enclose, written out: a text, repeated, with the numbers from 1 on in place of `%`.
fn push_repeated(alloc: Global, text: &mut String, quoted: &str) -> Result<(), RunError> {
    let (times, repeated) = quoted.split_once('*').ok_or(RunError::Read)?;
    let times = times.parse::<u32>().map_err(|_| RunError::Read)?;
    for number in 1..=times {
        let digits = format!(in alloc; "{number}")?;
        text.push_str(&repeated.replace(alloc, '%', &digits)?)?;
    }
    Ok(())
}

/// Returns a line with its repetitions written out.
pub(crate) fn written_out(alloc: Global, line: &str) -> Result<String, RunError> {
    let mut text = String::new(alloc);
    for (place, part) in line.split('`').enumerate() {
        if place % 2 == 0 {
            text.push_str(part)?;
        } else {
            push_repeated(alloc, &mut text, part)?;
        }
    }
    Ok(text)
}

/// Appends the byte of an escape, which begins a text after a backslash, and the rest of the text.
fn push_escape(bytes: &mut Vec<u8>, text: &[u8]) -> Result<(), RunError> {
    match text {
        [b'r', rest @ ..] => {
            bytes.push(b'\r')?;
            Ok(bytes.extend_from_slice(rest)?)
        }
        [b'n', rest @ ..] => {
            bytes.push(b'\n')?;
            Ok(bytes.extend_from_slice(rest)?)
        }
        [b'x', high, low, rest @ ..] => {
            let mut byte = [0u8; 1];
            let digits = [*high, *low];
            hex::decode_to_slice(digits.as_slice(), &mut byte).map_err(|_| RunError::Read)?;
            bytes.extend_from_slice(&byte)?;
            Ok(bytes.extend_from_slice(rest)?)
        }
        _ => Err(RunError::Read),
    }
}

/// Returns the bytes of a text, with its escapes replaced by their bytes.
pub(crate) fn unescaped(alloc: Global, text: &str) -> Result<Vec<u8>, RunError> {
    let mut bytes = Vec::new(alloc);
    let mut is_plain = true;
    for part in text.split('\\') {
        if is_plain {
            bytes.extend_from_slice(part.as_bytes())?;
            is_plain = false;
        } else if part.is_empty() {
            bytes.push(b'\\')?;
            is_plain = true;
        } else {
            push_escape(&mut bytes, part.as_bytes())?;
        }
    }
    Ok(bytes)
}

/// Appends a byte, or its escape where it is no printable ASCII.
fn push_escaped_byte(alloc: Global, output: &mut Vec<u8>, byte: u8) -> Result<(), RunError> {
    match byte {
        b'\r' => Ok(output.extend_from_slice(b"\\r")?),
        b'\n' => Ok(output.extend_from_slice(b"\\n")?),
        b'\\' => Ok(output.extend_from_slice(b"\\\\")?),
        b' '..=b'~' => Ok(output.push(byte)?),
        _ => {
            let escape = format!(in alloc; "\\x{byte:02x}")?;
            Ok(output.extend_from_slice(escape.as_bytes())?)
        }
    }
}

/// Appends bytes in the notation of raw requests.
pub(crate) fn push_escaped(
    alloc: Global,
    output: &mut Vec<u8>,
    bytes: &[u8],
) -> Result<(), RunError> {
    for byte in bytes {
        push_escaped_byte(alloc, output, *byte)?;
    }
    Ok(())
}
