//! The credentials of who asks an upstream registry.

use base64::engine::general_purpose::STANDARD;
use std::alloc::{AllocError, Global};
use thiserror::Error;

/// The number of bytes that a line of credentials has at most.
pub const LONGEST_CREDENTIALS: usize = 1_024;

/// Why a file has no credentials.
#[derive(Clone, Copy, Debug, PartialEq, Eq, Error)]
pub enum CredentialsFault {
    #[error("it has more than one line, or one of more than 1,024 bytes")]
    NoLine,
    #[error("its line is not of the form user:password")]
    NoColon,
    #[error("its line has a control byte")]
    HasControl,
    #[error("out of memory")]
    NoMemory,
}

impl From<AllocError> for CredentialsFault {
    ghost use Rattle.std.specs.Prelude.{◌≡◌};
    ghost use Rattle.upstream_fetching.specs.declared.credentials.CredentialsFault.TheVariants.{NoMemory};

    ghost from_gives = { λ _ e. e ≡ NoMemory };

    fn from(_error: AllocError) -> CredentialsFault {
        CredentialsFault::NoMemory
    }
}

/// Returns the bytes of a file without the end of its only line.
fn line_in(bytes: &[u8]) -> &[u8] {
    match bytes.strip_suffix(b"\r\n") {
        Some(line) => line,
        None => bytes.strip_suffix(b"\n").unwrap_or(bytes),
    }
}

/// Returns the text that names who asks, by the bytes of a file with one line `user:password` (RFC 7617, section 2).
pub fn credentials_of(alloc: Global, bytes: &[u8]) -> Result<String, CredentialsFault> {
    let line = line_in(bytes);
    if line.len() > LONGEST_CREDENTIALS || line.contains(&b'\n') {
        return Err(CredentialsFault::NoLine);
    }
    if !line.contains(&b':') {
        return Err(CredentialsFault::NoColon);
    }
    if line.iter().any(|byte| *byte < 0x20 || *byte == 0x7f) {
        return Err(CredentialsFault::HasControl);
    }
    Ok(STANDARD.encode(alloc, line)?)
}
