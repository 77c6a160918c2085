//! How lines end.

ghost use Rattle.std.specs.Prelude.{◌≡◌};
ghost use Rattle.http1.specs.Text.{lf_follows_cr};

/// Returns whether each LF has a CR before it: a bare LF ends no line here (RFC 9112, section 2.2).
pub(crate) fn ends_lines_in_crlf(bytes: &[u8]) -> bool
    ensures { result ≡ lf_follows_cr 0 bytes.now }
{
    let mut before = 0u8;
    for byte in bytes {
        if *byte == b'\n' && before != b'\r' {
            return false;
        }
        before = *byte;
    }
    true
}
