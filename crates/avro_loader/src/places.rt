//! Where the sections of an image begin, and which thing of them is out of range.

ghost use Rattle.spec_machine.specs.declared.limits.TheConstants.{MOST_ENTRIES};
ghost use Rattle.avro_loader.specs.Loading.{after, from_wrong, starts_of};
ghost use Rattle.avro_loader.specs.Reading.{Gives, section_at};

use crate::fault::LoadError;
use crate::reading::{push_tables, push_things};
use crate::thing::Thing;
use crate::{Format, u32_at};
use avro_bytes::Mismatch;
use isa::{Entry, Instr, Lists, ProgramError};
use std::alloc::Global;

/// The bytes of an image from each of its sections on.
#[derive(Clone, Copy)]
pub struct Sections<'a> {
    pub maps: &'a [u8],
    pub jumps: &'a [u8],
    pub misses: &'a [u8],
    pub code: &'a [u8],
}

/// Skips a count and `number` things, and returns the bytes after them.
#[tactic(auto, unfolding(crate::specs::Loading::after))]
fn after<'a, T: Thing>(
    alloc: Global,
    format: Format,
    number: usize,
    bytes: &'a [u8],
) -> Result<&'a [u8], LoadError>
    ensures { Gives (λ left. left.now) result (after (T.thing_at format) number bytes.now) }
{
    let (_count, rest) = u32_at(bytes)?;
    let mut things: Vec<T> = Vec::new(alloc);
    push_things(format, number, rest, &mut things)
}

/// Skips a count and `number` tables, and returns the bytes after them.
#[tactic(auto, unfolding(crate::specs::Loading::after))]
fn after_tables<'a, T: Thing>(
    alloc: Global,
    format: Format,
    number: usize,
    bytes: &'a [u8],
) -> Result<&'a [u8], LoadError>
    ensures { Gives (λ left. left.now) result
        (after (section_at format MOST_ENTRIES (T.thing_at format)) number bytes.now) }
{
    let (_count, rest) = u32_at(bytes)?;
    let mut tables: Lists<T> = Lists::new(alloc);
    push_tables(alloc, format, number, rest, &mut tables)
}

/// Returns the bytes from the thing on that is out of range; none for an error that names no such thing.
#[tactic(auto, unfolding(crate::specs::Loading::from_wrong))]
pub(crate) fn from_wrong<'a>(
    alloc: Global,
    format: Format,
    starts: Sections<'a>,
    error: ProgramError,
) -> Result<&'a [u8], LoadError>
    ensures { Gives (λ left. left.now) result (from_wrong format (starts_of starts.entry) error) }
{
    match error {
        ProgramError::Entry(map, entry) => {
            let left = after_tables::<Entry>(alloc, format, map, starts.maps)?;
            after::<Entry>(alloc, format, entry, left)
        }
        ProgramError::Address(table, address) => {
            let left = after_tables::<u32>(alloc, format, table, starts.jumps)?;
            after::<u32>(alloc, format, address, left)
        }
        ProgramError::Miss(miss) => after::<Mismatch>(alloc, format, miss, starts.misses),
        ProgramError::Instr(address) => after::<Instr>(alloc, format, address, starts.code),
        ProgramError::NoCode | ProgramError::TooLarge | ProgramError::EmptyConstant(_) => Ok(&[]),
    }
}
