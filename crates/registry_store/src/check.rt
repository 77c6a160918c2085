//! The check at the end of a line, which shows a damaged byte.

ghost use Rattle.std.specs.Prelude.{◌≡◌, ◌++◌, ◌∷◌, IfNone, IfOk, IfSome, string_bytes};
ghost use Rattle.registry_store.specs.Line.{HasCheck, check_of, checked};

use crate::format::{CHECK_BYTES, CHECK_DIGITS, END_LEN, SPACE};
use sha2::{Digest, Sha256};
use std::alloc::AllocError;

/// Returns the end of a line: a space and the check of the bytes before it.
fn line_end(body: &[u8]) -> [u8; END_LEN]
    ensures { result ≡ SPACE ∷ check_of body.now }
{
    let digest = Sha256::digest(body);
    let mut digits = [0; CHECK_DIGITS];
    let written = hex::encode_to_slice(&digest[..CHECK_BYTES], &mut digits);
    prove!(written.is_ok());
    let mut end = [SPACE; END_LEN];
    end[1..].copy_from_slice(&digits);
    end
}

/// Returns a line: its body, a space and the check.
pub(crate) fn with_check(body: String) -> Result<Vec<u8>, AllocError>
    ensures { IfOk result (λ line. line.items ≡ checked (string_bytes body)) }
{
    let mut line = body.into_bytes();
    let end = line_end(&line);
    line.extend_from_slice(&end)?;
    Ok(line)
}

/// Returns a line's bytes before its last space, where the check after it is theirs.
pub(crate) fn checked_body(line: &[u8]) -> Option<&[u8]>
    ensures found { IfSome result (λ body. line.now ≡ checked body.now) }
    ensures missing { IfNone result (¬ (HasCheck line.now)) }
{
    if line.len() < END_LEN {
        return None;
    }
    let (body, end) = line.split_at(line.len() - END_LEN);
    let wanted = line_end(body);
    if end == wanted.as_slice() {
        Some(body)
    } else {
        None
    }
}
