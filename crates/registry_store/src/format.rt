//! The format's fixed parts.

use percent_encoding::{AsciiSet, CONTROLS, ascii_set};

/// Ends a field.
pub const SPACE: u8 = b' ';

/// Ends a line.
pub const NEWLINE: u8 = b'\n';

/// How many bytes of a SHA-256 a check has; it is written as twice as many digits.
pub const CHECK_BYTES: usize = 8;

/// How many digits a check has.
pub const CHECK_DIGITS: usize = 16;

/// How many bytes a check has with the space before it.
pub(crate) const END_LEN: usize = 17;

/// The bytes of ASCII that a field without spaces escapes.
pub const WORD_ESCAPES: AsciiSet = ascii_set!(CONTROLS.add(b' ').add(b'%').add(b'*'));

/// The bytes of ASCII that a schema's text escapes.
pub const TEXT_ESCAPES: AsciiSet = ascii_set!(CONTROLS.add(b'%'));
