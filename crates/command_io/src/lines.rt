//! Where a line ends.

ghost use Rattle.std.specs.Prelude.{◌≡◌, ◌<◌, [], ◌∷◌, drop, length, IfSome, MatchOption};
ghost use Rattle.command_io.specs.Lines.{IsFirst};
ghost use Rattle.spec_lines.specs.Lines.{line_at, lines};

use memchr::memchr;

/// Returns the first line without its LF, and what follows it; `None` where there are no bytes.
pub fn split_line(bytes: &[u8]) -> Option<(&[u8], &[u8])>
    ensures place { IfSome result (λ p. IsFirst bytes.now p.0.now p.1.now) }
    ensures lines { MatchOption result (lines bytes.now ≡ [])
        (λ p. (lines bytes.now ≡ p.0.now ∷ lines p.1.now) × (length p.1.now < length bytes.now)) }
{
    match memchr(b'\n', bytes) {
        Some(end) => Some((&bytes[..end], &bytes[end + 1..])),
        None if bytes.is_empty() => None,
        None => Some((bytes, &bytes[bytes.len()..])),
    }
}

/// Returns the first line and what follows it, as `split_line` does; both are empty where there are no bytes.
pub fn split_line_or_empty(bytes: &[u8]) -> (&[u8], &[u8])
    ensures first { result.0.now ≡ line_at (lines bytes.now) 0 }
    ensures rest { lines result.1.now ≡ drop 1 (lines bytes.now) }
{
    match split_line(bytes) {
        Some(parts) => parts,
        None => (&[], &[]),
    }
}
