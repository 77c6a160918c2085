//! The pieces of a payload that a line spells.

ghost use Rattle.std.specs.Prelude.{◌≡◌, ◌<◌, ◌∷◌, [], IfOk, MatchOption, length};
ghost use Rattle.spec_machine.specs.ListingWords.{parts};
ghost use Rattle.spec_lines.specs.Running.{pieces_of};

use command_io::payload_of;
use isa::Lists;
use memchr::memchr;
use std::alloc::{AllocError, Global};

/// Returns the text before the first bar, and what follows the bar; `None` where there is no bar.
fn split_bar(line: &[u8]) -> (&[u8], Option<&[u8]>)
    ensures { MatchOption result.1 (parts 124 line.now ≡ result.0.now ∷ [])
        (λ later. (parts 124 line.now ≡ result.0.now ∷ parts 124 later.now) × (length later.now < length line.now)) }
{
    match memchr(b'|', line) {
        Some(end) => (&line[..end], Some(&line[end + 1..])),
        None => (line, None),
    }
}

/// Returns the pieces that a line spells, which are separated by bars; `None` where one of them spells no bytes.
pub(crate) fn pieces_of(alloc: Global, line: &[u8]) -> Result<Option<Lists<u8>>, AllocError>
    ensures { IfOk result (λ found. pieces_of line.now ≡ found) }
{
    let mut pieces = Lists::new(alloc);
    let mut rest = Some(line);
    while let Some(left) = rest {
        let (text, later) = split_bar(left);
        let Some(piece) = payload_of(alloc, text)? else {
            return Ok(None);
        };
        pieces.push(&piece)?;
        rest = later;
    }
    Ok(Some(pieces))
}
