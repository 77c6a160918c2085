//! The listing at the front of an input of `run`.

ghost use Rattle.std.specs.Prelude.{◌≡◌, codes};
ghost use Rattle.std.specs.Str.{bytes_eq};
ghost use Rattle.spec_lines.specs.Lines.{lines};
ghost use Rattle.spec_lines.specs.Listed.{listed};

use command_io::split_line;

/// Returns whether a line ends the listing.
fn is_end(line: &[u8]) -> bool
    ensures { result ≡ bytes_eq line.now (codes "end") }
{
    line == "end".as_bytes()
}

/// Returns the listing of an input, and what follows the first line `end`.
pub(crate) fn split_listing(input: &[u8]) -> (&[u8], &[u8])
    ensures { listed input.now ≡ (result.0.now, lines result.1.now) }
{
    let mut rest = input;
    while let Some((line, later)) = split_line(rest) {
        if is_end(line) {
            return (&input[..input.len() - rest.len()], later);
        }
        rest = later;
    }
    (input, &[])
}
