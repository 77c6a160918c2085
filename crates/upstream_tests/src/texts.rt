//! Texts of tables, and comparisons of them.

use std::alloc::{AllocError, Global};
use std::process::Abort;

/// Asserts that a text that was found is the one that is wanted. All is compared here: what an assertion does where it
/// fails is then looked at once.
pub(crate) fn same(rt: &impl Abort, found: &str, wanted: &str) {
    assert_eq!(rt; found, wanted);
}

/// Returns the bytes that a text in a table means: `|` is CR LF, `^` an LF alone, and `~` the beginning of a record of
/// TLS.
pub(crate) fn bytes_of(alloc: Global, text: &str) -> Result<Vec<u8>, AllocError> {
    let mut bytes = Vec::new(alloc);
    for byte in text.as_bytes() {
        match byte {
            b'|' => bytes.extend_from_slice(b"\r\n")?,
            b'^' => bytes.push(b'\n')?,
            b'~' => bytes.extend_from_slice(b"\x16\x03\x01")?,
            _ => bytes.push(*byte)?,
        }
    }
    Ok(bytes)
}

/// Returns the number that a word is; 0 where it is none.
pub(crate) fn number(word: &str) -> u32 {
    word.parse::<u32>().unwrap_or(0)
}
