//! The version of the library, and the words of a status, for a program in another language.

ghost use Rattle.embedding.specs.Words.{WritesText, WritesWords};

use crate::status::Status;

/// The version of the library: its three numbers as one, of which the second and the third have two digits each.
pub const VERSION: u32 = 100;

/// Writes a text and a byte 0 to the room's front, where both fit. Returns how long the text is.
fn write_text(text: &str, room: &mut [u8]) -> usize
    ensures { WritesText text.now room.new result }
{
    let text = text.as_bytes();
    if text.len() < room.len() {
        room[..text.len()].copy_from_slice(text);
        room[text.len()] = 0;
    }
    text.len()
}

/// Writes the words of the status with this number, and a byte 0, to the room's front, where both fit. Returns how
/// long the words are: 0 where no status has the number.
pub fn write_words(code: u32, room: &mut [u8]) -> usize
    ensures { WritesWords code room.new result }
{
    let words = match Status::of_code(code) {
        Some(status) => status.words(),
        None => "",
    };
    write_text(words, room)
}
