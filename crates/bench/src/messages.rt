//! The messages of a measurement, in a container.

use byteorder::{ByteOrder, LittleEndian};
use std::alloc::Global;

/// Returns the first `at` bytes, and what follows them. `None` where there are fewer.
fn split(bytes: &[u8], at: usize) -> Option<(&[u8], &[u8])> {
    if at > bytes.len() {
        return None;
    }
    Some(bytes.split_at(at))
}

/// Returns a number of 32 bits, and what follows it. `None` where there are fewer than four bytes.
fn split_number(bytes: &[u8]) -> Option<(usize, &[u8])> {
    if bytes.len() < 4 {
        return None;
    }
    Some((LittleEndian::read_u32(bytes) as usize, &bytes[4..]))
}

/// Messages in a container: how many there are, the length of each, and then their bytes, one after another. Numbers
/// are of 32 bits with the least byte first.
#[derive(Drop)]
pub(crate) struct Messages<'a> {
    lengths: &'a [u8],
    bytes: &'a [u8],
}

impl<'a> Messages<'a> {
    /// Returns the messages of a container. `None` where it has fewer lengths than it says.
    pub(crate) fn of(container: &'a [u8]) -> Option<Messages<'a>> {
        let (count, rest) = split_number(container)?;
        let (lengths, bytes) = split(rest, count.checked_mul(4)?)?;
        Some(Messages { lengths, bytes })
    }

    /// Returns the number of messages.
    pub(crate) fn len(&self) -> usize {
        self.lengths.len() / 4
    }

    /// Returns each of the messages. `None` where one is not whole, or memory ran out.
    pub(crate) fn split(&self, alloc: Global) -> Option<Vec<&'a [u8]>> {
        let mut messages = Vec::with_capacity(alloc, self.len()).ok()?;
        let mut rest = self.bytes;
        for length in self.lengths.chunks(4) {
            let (length, _) = split_number(length)?;
            let (message, behind) = split(rest, length)?;
            messages.push(message).ok()?;
            rest = behind;
        }
        Some(messages)
    }
}

/// Appends a number of 32 bits. `None` where it has more bits, or memory ran out.
pub(crate) fn put_number(bytes: &mut Vec<u8>, number: usize) -> Option<()> {
    let number = u32::try_from(number).ok()?;
    let mut spelled = [0; 4];
    LittleEndian::write_u32(&mut spelled, number);
    bytes.extend_from_slice(&spelled).ok()
}
