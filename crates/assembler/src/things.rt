//! What the words of a line say: numbers, bytes, entries, operands.

ghost use Rattle.std.specs.Prelude.{◌≡◌, ℕ, List, Option, IfOk, option_map};
ghost use Rattle.spec_machine.specs.ListingParts.{at_end, bytes_in, constant_in, each_in, entry_in, first_number, instr_in, miss_in, numbered, operand_in};
ghost use Rattle.spec_machine.specs.ListingWords.{later, number_in};

use crate::{kind_named, next_word, number_of, operation_named};
use avro_bytes::Mismatch;
use hex::FromHexError;
use isa::{Entry, Instr, Shape};
use std::alloc::{AllocError, Global};

/// Returns the first number after a space, and what follows it; `None` where the next word is no number.
#[tactic(auto, unfolding(spec_machine::specs::ListingParts::first_number))]
pub(crate) fn first_number(rest: &[u8]) -> Option<(u32, &[u8])>
    ensures { option_map (λ p. (p.0, later p.1.now)) result ≡ first_number (later rest.now) }
{
    let (word, rest) = next_word(rest)?;
    let number = number_of(word)?;
    Some((number, rest))
}

/// Returns the bytes whose lower-case hex a word is; `None` where it is none or empty.
#[tactic(auto, unfolding(spec_machine::specs::ListingParts::bytes_in))]
pub fn bytes_of(alloc: Global, word: &[u8]) -> Result<Option<Vec<u8>>, AllocError>
    ensures { IfOk result (λ found. option_map (λ bytes. bytes.items) found ≡ bytes_in word.now) }
{
    let bytes = match hex::decode(alloc, word) {
        Ok(bytes) => bytes,
        Err(FromHexError::OutOfMemory) => return Err(AllocError),
        Err(_) => return Ok(None),
    };
    let again = hex::encode(alloc, bytes.as_slice())?;
    if bytes.is_empty() || again.as_bytes() != word {
        return Ok(None);
    }
    Ok(Some(bytes))
}

/// Returns the constant that the words of a line say; `None` where they are not one word of hex.
#[tactic(auto, unfolding(spec_machine::specs::ListingParts::constant_in))]
fn constant_of(alloc: Global, rest: &[u8]) -> Result<Option<Vec<u8>>, AllocError>
    ensures { IfOk result (λ found. option_map (λ bytes. bytes.items) found ≡ constant_in (later rest.now)) }
{
    let Some((word, rest)) = next_word(rest) else {
        return Ok(None);
    };
    let found = bytes_of(alloc, word)?;
    match next_word(rest) {
        Some(_) => Ok(None),
        None => Ok(found),
    }
}

/// What one word says.
pub(crate) trait Word: Copy {
    ghost said: { List ℕ → Option Self };

    fn of_word(word: &[u8]) -> Option<Self>
        ensures { result ≡ said word.now };
}

impl Word for u32 {
    ghost said = { number_in };

    fn of_word(word: &[u8]) -> Option<u32> {
        number_of(word)
    }
}

impl Word for Entry {
    ghost said = { entry_in };

    #[tactic(auto, unfolding(spec_machine::specs::ListingParts::entry_in))]
    fn of_word(word: &[u8]) -> Option<Entry> {
        match word {
            [] => None,
            [b'!', miss @ ..] => Some(Entry::Miss(number_of(miss)?)),
            _ => Some(Entry::Position(number_of(word)?)),
        }
    }
}

/// Returns what each of the words of a line says; `None` where a word says nothing of this type.
fn list_of<T: Word>(alloc: Global, words: &[u8]) -> Result<Option<Vec<T>>, AllocError>
    ensures { IfOk result (λ found. option_map (λ list. list.items) found ≡ each_in T.said (later words.now)) }
{
    let mut list = Vec::new(alloc);
    let mut rest = words;
    while let Some((word, after)) = next_word(rest) {
        let Some(thing) = T::of_word(word) else {
            return Ok(None);
        };
        list.push(thing)?;
        rest = after;
    }
    Ok(Some(list))
}

/// Returns the number and the constant that the words of a line say, if they say them.
#[tactic(auto, unfolding(spec_machine::specs::ListingParts::numbered))]
pub(crate) fn numbered_constant(
    alloc: Global,
    words: &[u8],
) -> Result<Option<(u32, Vec<u8>)>, AllocError>
    ensures { IfOk result
        (λ found. option_map (λ x. (x.0, x.1.items)) found ≡ numbered constant_in (later words.now)) }
{
    let Some((number, rest)) = first_number(words) else {
        return Ok(None);
    };
    match constant_of(alloc, rest)? {
        Some(bytes) => Ok(Some((number, bytes))),
        None => Ok(None),
    }
}

/// Returns the number and the list that the words of a line say, if they say them.
#[tactic(auto, unfolding(spec_machine::specs::ListingParts::numbered))]
pub(crate) fn numbered_list<T: Word>(
    alloc: Global,
    words: &[u8],
) -> Result<Option<(u32, Vec<T>)>, AllocError>
    ensures { IfOk result
        (λ found. option_map (λ x. (x.0, x.1.items)) found ≡ numbered (each_in T.said) (later words.now)) }
{
    let Some((number, rest)) = first_number(words) else {
        return Ok(None);
    };
    match list_of(alloc, rest)? {
        Some(list) => Ok(Some((number, list))),
        None => Ok(None),
    }
}

/// Returns a thing where no word is left, and else `None`.
fn at_end<T: Copy>(thing: T, rest: &[u8]) -> Option<T>
    ensures { result ≡ at_end thing (later rest.now) }
{
    match next_word(rest) {
        Some(_) => None,
        None => Some(thing),
    }
}

/// Returns the miss that the words of a line say, if they say one.
#[tactic(auto, unfolding(spec_machine::specs::ListingParts::miss_in))]
pub(crate) fn miss_of(rest: &[u8]) -> Option<Mismatch>
    ensures { result ≡ miss_in (later rest.now) }
{
    let (word, rest) = next_word(rest)?;
    let kind = kind_named(word)?;
    let (writer_node, rest) = first_number(rest)?;
    let (reader_node, rest) = first_number(rest)?;
    let miss = Mismatch {
        kind,
        writer_node: writer_node as usize,
        reader_node: reader_node as usize,
    };
    at_end(miss, rest)
}

/// Returns the operand that an operation has, or 0 where it has none, and what follows it.
fn operand_of(shape: Shape, rest: &[u8]) -> Option<(u32, &[u8])>
    ensures { option_map (λ p. (p.0, later p.1.now)) result ≡ operand_in shape (later rest.now) }
{
    match shape {
        Shape::Nothing => Some((0, rest)),
        Shape::Short | Shape::Long | Shape::Address => first_number(rest),
    }
}

/// Returns the instruction that the words of a line say, if they say one.
#[tactic(auto, unfolding(spec_machine::specs::ListingParts::instr_in))]
pub(crate) fn instr_of(rest: &[u8]) -> Option<Instr>
    ensures { result ≡ instr_in (later rest.now) }
{
    let (word, rest) = next_word(rest)?;
    let operation = operation_named(word)?;
    let (operand, rest) = operand_of(operation.shape(), rest)?;
    at_end(operation.with(operand), rest)
}
