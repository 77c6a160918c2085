//! How much of a content one row moves.

ghost use Rattle.std.specs.Prelude.{◌≤◌, length};
ghost use Rattle.machine_store.specs.Chunks.{HasMoved, IsChunk, content_of};
ghost use Rattle.machine_store.specs.Text.{check_of};

use crate::text::TextCheck;
use avro_bytes::Fault;
use isa::MOST_CHUNK;

/// A content of which bytes are still to move.
#[derive(Clone, Copy, Debug)]
pub struct Content {
    pub left: usize,
    /// The offset of its first byte.
    pub from: usize,
}

/// How much of a content a row moves.
#[derive(Clone, Copy)]
pub enum Chunk {
    /// As much as a row may move, after which this is known of the content.
    Full(TextCheck),
    /// All that is left.
    Rest,
}

/// Returns how much of a content the row at an offset moves. An `Err` where bytes are missing: no fault of the
/// content is reported before they are there.
pub fn chunk_at(
    content: Content,
    check: TextCheck,
    input: &[u8],
    pos: usize,
) -> Result<Chunk, Fault>
    requires within { pos ≤ length input.now }
    requires content { HasMoved input.now pos (check_of check) (content_of content) }
    ensures { IsChunk input.now pos (check_of check) (content_of content) result }
{
    let there = input.len() - pos;
    if there < content.left.min(MOST_CHUNK) {
        return Err(Fault::Need);
    }
    if content.left > MOST_CHUNK {
        let check = check.pass(input, content.from, pos, pos + MOST_CHUNK);
        return Ok(Chunk::Full(check));
    }
    Ok(Chunk::Rest)
}
