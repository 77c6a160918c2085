//! Reading the sections of an image.

ghost use Rattle.std.specs.Prelude.{◌≡◌, [], Ok};
ghost use Rattle.avro_loader.specs.ImageReading.{Tells};
ghost use Rattle.avro_loader.specs.Reading.{Gives, count_at, things_at, section_at, constant_at, constants_at, constants_section_at, code_at};

use crate::fault::LoadError;
use crate::thing::Thing;
use crate::{Format, ImageFault, u32_at};
use isa::{Instr, Lists, MOST_CONSTANT_BYTES, MOST_ENTRIES, MOST_TABLES};
use std::alloc::Global;

/// Reads a count, which is at most `most`, and returns it with the bytes after it. `TooLarge` where it is greater.
#[tactic(auto, unfolding(crate::specs::Reading::count_at))]
fn count_of(format: Format, most: usize, bytes: &[u8]) -> Result<(usize, &[u8]), ImageFault>
    ensures { Tells (λ x. (x.0, x.1.now)) result (count_at format most bytes.now) }
{
    let (count, rest) = u32_at(bytes)?;
    let count = count as usize;
    if most < count {
        return Err(ImageFault::TooLarge(format.place(bytes)));
    }
    Ok((count, rest))
}

/// Reads `count` things into an empty vector, and returns the bytes after them.
pub(crate) fn push_things<'a, T: Thing>(
    format: Format,
    count: usize,
    bytes: &'a [u8],
    things: &mut Vec<T>,
) -> Result<&'a [u8], LoadError>
    requires { things.old.items ≡ [] }
    ensures { Gives (λ rest. (things.new.items, rest.now)) result (things_at (T.thing_at format) count bytes.now) }
{
    let mut rest = bytes;
    for _ in 0..count {
        let (thing, after) = T::read(format, rest)?;
        things.push(thing)?;
        rest = after;
    }
    Ok(rest)
}

/// Reads a section, a count and that number of things, into an empty vector, and returns the bytes after it.
#[tactic(auto, unfolding(crate::specs::Reading::section_at))]
pub(crate) fn push_section<'a, T: Thing>(
    format: Format,
    most: usize,
    bytes: &'a [u8],
    things: &mut Vec<T>,
) -> Result<&'a [u8], LoadError>
    requires { things.old.items ≡ [] }
    ensures { Gives (λ rest. (things.new.items, rest.now)) result
        (section_at format most (T.thing_at format) bytes.now) }
{
    let (count, rest) = count_of(format, most, bytes)?;
    push_things(format, count, rest, things)
}

/// Reads `count` tables into an empty list, and returns the bytes after them.
pub(crate) fn push_tables<'a, T: Thing>(
    alloc: Global,
    format: Format,
    count: usize,
    bytes: &'a [u8],
    tables: &mut Lists<T>,
) -> Result<&'a [u8], LoadError>
    requires { tables.old ≡ [] }
    ensures { Gives (λ rest. (tables.new, rest.now)) result
        (things_at (section_at format MOST_ENTRIES (T.thing_at format)) count bytes.now) }
{
    let mut rest = bytes;
    for _ in 0..count {
        let mut table = Vec::new(alloc);
        let after = push_section(format, MOST_ENTRIES, rest, &mut table)?;
        tables.push(&table)?;
        rest = after;
    }
    Ok(rest)
}

/// Reads a section of tables, a count and that number of tables, into an empty list, and returns the bytes after it.
#[tactic(auto, unfolding(crate::specs::Reading::section_at))]
pub(crate) fn push_section_of_tables<'a, T: Thing>(
    alloc: Global,
    format: Format,
    bytes: &'a [u8],
    tables: &mut Lists<T>,
) -> Result<&'a [u8], LoadError>
    requires { tables.old ≡ [] }
    ensures { Gives (λ rest. (tables.new, rest.now)) result
        (section_at format MOST_TABLES (section_at format MOST_ENTRIES (T.thing_at format)) bytes.now) }
{
    let (count, rest) = count_of(format, MOST_TABLES, bytes)?;
    push_tables(alloc, format, count, rest, tables)
}

/// Reads a constant, of which at most `room` bytes may come, and returns its bytes and those after it. `BadByte` where
/// it is empty, `TooLarge` where it is longer than `room`, `Truncated` where bytes are missing.
#[tactic(auto, unfolding(crate::specs::Reading::constant_at))]
fn constant_of(format: Format, room: usize, bytes: &[u8]) -> Result<(&[u8], &[u8]), ImageFault>
    ensures { Tells (λ x. (x.0.now, x.1.now)) result (constant_at format room bytes.now) }
{
    let (len, rest) = u32_at(bytes)?;
    let len = len as usize;
    if len == 0 {
        return Err(ImageFault::BadByte(format.place(bytes)));
    }
    if room < len {
        return Err(ImageFault::TooLarge(format.place(bytes)));
    }
    if rest.len() < len {
        return Err(ImageFault::Truncated);
    }
    Ok(rest.split_at(len))
}

/// Reads `count` constants into an empty list, and returns the bytes after them.
fn push_constants<'a>(
    format: Format,
    count: usize,
    bytes: &'a [u8],
    constants: &mut Lists<u8>,
) -> Result<&'a [u8], LoadError>
    requires { constants.old ≡ [] }
    ensures { Gives (λ rest. (constants.new, rest.now)) result
        (constants_at format MOST_CONSTANT_BYTES count bytes.now) }
{
    let mut room = MOST_CONSTANT_BYTES;
    let mut rest = bytes;
    for _ in 0..count {
        let (constant, after) = constant_of(format, room, rest)?;
        constants.push(constant)?;
        room = room.saturating_sub(constant.len());
        rest = after;
    }
    Ok(rest)
}

/// Reads the section of constants into an empty list, and returns the bytes after it.
#[tactic(auto, unfolding(crate::specs::Reading::constants_section_at))]
pub(crate) fn push_section_of_constants<'a>(
    format: Format,
    bytes: &'a [u8],
    constants: &mut Lists<u8>,
) -> Result<&'a [u8], LoadError>
    requires { constants.old ≡ [] }
    ensures { Gives (λ rest. (constants.new, rest.now)) result (constants_section_at format bytes.now) }
{
    let (count, rest) = count_of(format, MOST_TABLES, bytes)?;
    push_constants(format, count, rest, constants)
}

/// Reads the section of the code into an empty vector, and returns the bytes after it. `NoCode` where the count is 0.
#[tactic(auto, unfolding(crate::specs::Reading::code_at))]
pub(crate) fn push_section_of_code<'a>(
    format: Format,
    bytes: &'a [u8],
    code: &mut Vec<Instr>,
) -> Result<&'a [u8], LoadError>
    requires { code.old.items ≡ [] }
    ensures { Gives (λ rest. (code.new.items, rest.now)) result (code_at format bytes.now) }
{
    let (count, rest) = count_of(format, format.version.most_instrs(), bytes)?;
    if count == 0 {
        return Err(LoadError::Fault(ImageFault::NoCode));
    }
    push_things(format, count, rest, code)
}
