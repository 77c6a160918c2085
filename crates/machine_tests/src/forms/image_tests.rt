//! Images of both versions: those of a program, and the fault of bytes that are no image.

use crate::again::again;
use crate::forms::rows::{Tried, assert_rows, is_answer};
use crate::texts::holds;
use avro_loader::{LoadError, load, migrate, save};
use hex::FromHexError;
use isa::Program;
use std::alloc::{AllocError, Global};
use std::process::Abort;
use std::test::Fail;

/// The beginnings of images of both versions that have no tables, up to the count of their instructions.
const HEAD_1: &str = "415652500100000000000000000000000000000000";

const HEAD_2: &str = "415652500200000000000000000000000000000000";

/// The image of a record of a long and a string to itself, in version 1.
const IMAGE_1: &str = "\
415652500100000000000000000000000000000000\
00000009\
1c00021f1100021200000312000105131d";

/// The image of this record in version 2.
const IMAGE_2: &str = "\
415652500200000000000000000000000000000000\
00000009\
1c000000021f1100021200000312000105131d";

/// The image of a code that passes over an enum of three symbols, whose operand has 4 bytes.
const IMAGE_OF_ENUM: &str = "\
415652500200000000000000000000000000000000\
00000002\
0f000000031f";

/// An image that has a thing of each kind: a constant, a map, a jump table, a miss and a code.
const IMAGE_OF_ALL: &str = "\
4156525002\
000000010000000202ff\
0000000100000002000003010000\
00000001000000020000000000000005\
000000010300010002\
00000006\
0800001a00001000001b000007000000101f";

/// Images and the listing or the first fault of each.
///
/// An image is the parts of it one after another, by their names or in digits; `27=09` replaces the bytes from 27 on
/// by others. After `>` comes the image in version 2.
const ROWS: &str = "\
one>two|@0 CALL 2;1 HALT;2 RECORD 2;3 SLOT 0;4 LONG;5 SLOT 1;6 TEXT;7 ENDREC;8 RET;
two|@0 CALL 2;1 HALT;2 RECORD 2;3 SLOT 0;4 LONG;5 SLOT 1;6 TEXT;7 ENDREC;8 RET;
enum|@0 SENUM 3;1 HALT;
all|@const 0 02ff;map 0 3 !0;jumps 0 0 5;miss 0 NoSymbol 1 2;\
0 ENUM 0;1 BRANCH 0;2 PUT 0;3 MISS 0;4 FIXED 16;5 HALT;
one 0=00|the bytes do not begin as an image
one 4=03|there is no such version
one 5=01|the count or length at 5 passes its limit
one 25=20|the byte at 25 has no meaning
one 25=00|the byte at 25 has no meaning
one 27=09|what stands at 25 is out of range
one 24=00|there is no instruction
one 24=08|bytes stand after the image, at 41
one 24=0a|the image is cut
all 12=00|the byte at 9 has no meaning
all 10=ff|the count or length at 9 passes its limit
all 23=02|the byte at 23 has no meaning
all 24=10|what stands at 23 is out of range
all 28=01|what stands at 26 is out of range
all 44=06|what stands at 41 is out of range
all 49=06|the byte at 49 has no meaning
all 50=04|what stands at 49 is out of range
all 60=01|what stands at 58 is out of range
one 00|bytes stand after the image, at 42
two 00|bytes stand after the image, at 44
all 00|bytes stand after the image, at 76
one 27=09 00|bytes stand after the image, at 42
head1 00010000 1f|the image is cut
head1 00010001 1f|the count or length at 21 passes its limit
head2 00040000 1f|the image is cut
head2 00040001 1f|the count or length at 21 passes its limit
";

/// Returns the digits of a part of an image.
fn digits(part: &str) -> &str {
    match part {
        "one" => IMAGE_1,
        "two" => IMAGE_2,
        "enum" => IMAGE_OF_ENUM,
        "all" => IMAGE_OF_ALL,
        "head1" => HEAD_1,
        "head2" => HEAD_2,
        _ => part,
    }
}

/// Replaces the bytes from offset `from` on by others.
fn put(image: &mut Vec<u8>, from: usize, other: &str) -> Result<(), FromHexError> {
    let end = from.saturating_add(other.len() / 2);
    if end > image.len() {
        return Err(FromHexError::InvalidStringLength);
    }
    hex::decode_to_slice(other, &mut image[from..end])
}

/// Appends the bytes of digits.
fn push_digits(alloc: Global, image: &mut Vec<u8>, digits: &str) -> Result<(), FromHexError> {
    let bytes = hex::decode(alloc, digits)?;
    Ok(image.extend_from_slice(&bytes)?)
}

/// Appends the image that these parts describe.
fn push_image(alloc: Global, image: &mut Vec<u8>, parts: &str) -> Result<(), FromHexError> {
    for part in parts.split(' ') {
        match part.split_once('=') {
            Some((from, other)) => put(image, from.parse().unwrap_or(usize::MAX), other)?,
            None => push_digits(alloc, image, digits(part))?,
        }
    }
    Ok(())
}

/// Returns how many bytes the operand of a code has in version 1, and whether it is an address.
fn operand_of(code: u8) -> (usize, bool) {
    match code {
        0x17 | 0x19 | 0x1c | 0x1e => (2, true),
        0x06 | 0x08 | 0x10 | 0x11 | 0x12 | 0x1a | 0x1b => (2, false),
        0x07 | 0x0e | 0x0f => (4, false),
        _ => (0, false),
    }
}

/// Appends an image in version 2, where one of version 1 has no tables: each address has two bytes more.
fn push_version_two(second: &mut Vec<u8>, image: &[u8]) -> Result<(), AllocError> {
    let Some(code) = image.strip_prefix(b"AVRP\x01") else {
        return second.extend_from_slice(image);
    };
    second.extend_from_slice(b"AVRP\x02")?;
    let mut left = 20;
    for byte in code {
        second.push(*byte)?;
        if left > 0 {
            left -= 1;
        } else {
            let (len, is_address) = operand_of(*byte);
            second.extend_from_slice(if is_address { &[0, 0] } else { &[] })?;
            left = len;
        }
    }
    Ok(())
}

/// Returns whether these bytes were found.
fn is_found<E: Drop>(found: Result<Vec<u8>, E>, want: &[u8]) -> bool {
    match found {
        Ok(bytes) => bytes.as_slice() == want,
        Err(_) => false,
    }
}

/// Returns whether a program is saved as an image in version 2, and another of its images migrates to the same one.
fn is_saved(alloc: Global, program: &Program, image: &[u8], second: &[u8]) -> bool {
    is_found(again!(save(alloc, program), AllocError), second)
        && is_found(again!(migrate(alloc, image), LoadError::NoMemory), second)
}

/// Returns whether bytes are no image, or `second` is their image in version 2.
fn is_none_or_saved(alloc: Global, bytes: &[u8], second: &[u8]) -> bool {
    match again!(load(alloc, bytes), LoadError::NoMemory) {
        Ok(program) => is_saved(alloc, &program, bytes, second),
        Err(_) => true,
    }
}

/// Returns whether bytes are no image, or their image in version 2 is the one that `push_version_two` makes of them.
fn is_none_or_kept(alloc: Global, bytes: &[u8]) -> Result<bool, AllocError> {
    let mut second = Vec::new(alloc);
    push_version_two(&mut second, bytes)?;
    Ok(is_none_or_saved(alloc, bytes, &second))
}

/// Returns whether this is the answer for an image: a listing, and its image in version 2, or a fault.
pub(crate) fn is_image_answer(
    alloc: Global,
    images: &str,
    want: &str,
) -> Result<bool, FromHexError> {
    let (parts, others) = images.split_once('>').unwrap_or((images, images));
    let (mut image, mut second) = (Vec::new(alloc), Vec::new(alloc));
    push_image(alloc, &mut image, parts)?;
    push_image(alloc, &mut second, others)?;
    let is_answer = is_answer(
        alloc,
        again!(load(alloc, &image), LoadError::NoMemory),
        want,
    )?;
    Ok(is_answer && is_none_or_saved(alloc, &image, &second))
}

#[test]
fn images_have_a_listing_or_a_first_fault(rt: HostRuntime) -> Result<(), Fail> {
    assert_rows(&rt, Tried::Image, ROWS)
}

/// Asserts that each proper prefix of bytes is a cut image.
fn assert_fronts(rt: &(impl Abort + AllocGlobal), bytes: &[u8]) -> Result<(), AllocError> {
    for len in 0..bytes.len() {
        let front = load(rt.alloc(), &bytes[..len]);
        let is_cut = is_answer(rt.alloc(), front, "the image is cut")?;
        holds(rt, is_cut, "a front");
    }
    Ok(())
}

/// Asserts that bytes with any byte at any offset are no image, or one of their program.
fn assert_bytes(rt: &(impl Abort + AllocGlobal), bytes: &mut Vec<u8>) -> Result<(), AllocError> {
    for at in 0..bytes.len() {
        let was = bytes[at];
        for byte in 0..=255u8 {
            bytes[at] = byte;
            holds(rt, is_none_or_kept(rt.alloc(), bytes)?, "a byte");
        }
        bytes[at] = was;
    }
    Ok(())
}

#[test]
fn fronts_are_cut_and_other_bytes_are_told_or_kept(rt: HostRuntime) -> Result<(), Fail> {
    for image in [IMAGE_1, IMAGE_2, IMAGE_OF_ALL] {
        let mut bytes = hex::decode(rt.alloc(), image)?;
        assert_fronts(&rt, &bytes)?;
        assert_bytes(&rt, &mut bytes)?;
    }
    Ok(())
}
