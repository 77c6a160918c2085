//! The programs of pairs of registered schemas.

ghost use Rattle.spec_registry.specs.Receipt.{IsReceiptOf};

use crate::same::same;
use crate::schemas::{RECORD, RECORD_LISTING};
use assembler::disassemble;
use avro_schema::Schema;
use program_cache::{ProgramCache, Programs, PublishError};
use program_compiler::{CompileError, compile};
use schema_registry::{Receipt, Refusal, SharedRegistry};
use std::alloc::{AllocError, Global};
use std::process::Abort;
use std::sync::Wait;
use std::test::Fail;
use std::thread;
use std::thread::Threads;

/// A record of two fields, the same with its fields the other way round, and an int.
const TEXTS: &str =
    r#"{"type":"record","name":"T","fields":[{"name":"a","type":"long"},{"name":"b","type":"string"}]}
{"type":"record","name":"T","fields":[{"name":"b","type":"string"},{"name":"a","type":"long"}]}
"int""#;

/// Registers the schemas of the lines of a text, each under a subject of its own: they have the ids 1, 2, 3 ..
fn register_lines<R: Wait>(
    rt: &R,
    alloc: Global,
    registry: &SharedRegistry,
    texts: &str,
) -> Result<(), Refusal> {
    for (number, text) in texts.lines().enumerate() {
        let subject = format!(in alloc; "s{number}")?;
        let _registered = registry.register(rt, subject, String::from_str(alloc, text)?)?;
    }
    Ok(())
}

/// Returns how many instructions the program of a pair of ids has. `Clash` where an id has no schema.
fn len_of(cache: &ProgramCache<'_>, writer: u32, reader: u32) -> Result<usize, PublishError> {
    let registry = cache.registry();
    let (Some((_, mut writer)), Some((_, mut reader))) = (
        registry.find(writer),
        registry.find(reader),
    ) else {
        return Err(PublishError::Clash);
    };
    Ok(cache.program(&mut writer, &mut reader)?.program().len())
}

/// Returns the listing of the program that a pair is compiled to.
fn compiled(alloc: Global, writer: &Schema, reader: &Schema) -> Result<String, PublishError> {
    match compile(alloc, writer.nodes(), reader.nodes()) {
        Ok(program) => Ok(disassemble(alloc, &program)?),
        Err(CompileError::ProgramTooLarge) => Err(PublishError::ProgramTooLarge),
        Err(CompileError::NoMemory) => Err(PublishError::NoMemory),
    }
}

/// Returns whether a cache has the program that the schemas of two ids are compiled to.
fn has_own(
    alloc: Global,
    cache: &ProgramCache<'_>,
    writer: u32,
    reader: u32,
) -> Result<bool, PublishError> {
    let registry = cache.registry();
    let (Some((first, mut writer)), Some((second, mut reader))) = (
        registry.find(writer),
        registry.find(reader),
    ) else {
        return Ok(false);
    };
    let program = cache.program(&mut writer, &mut reader)?;
    let found = disassemble(alloc, program.program())?;
    Ok(found == compiled(alloc, first, second)?)
}

/// Returns whether all pairs of the ids 1, 2 and 3 have their own programs in a cache.
fn all_have_own(alloc: Global, cache: &ProgramCache<'_>) -> Result<bool, PublishError> {
    for number in 0..9_u32 {
        if !has_own(alloc, cache, 1 + number / 3, 1 + number % 3)? {
            return Ok(false);
        }
    }
    Ok(true)
}

#[test]
fn each_pair_has_its_own_program(rt: HostRuntime) -> Result<(), Fail> {
    let alloc = rt.alloc();
    let registry = SharedRegistry::new(alloc)?;
    register_lines(&rt, alloc, &registry, TEXTS)?;
    let cache = ProgramCache::new(alloc, &registry)?;
    same(&rt, len_of(&cache, 1, 1), Ok(9));
    same(&rt, len_of(&cache, 3, 3), Ok(2));
    same(&rt, all_have_own(alloc, &cache), Ok(true));
    same(&rt, all_have_own(alloc, &cache), Ok(true));
    same(&rt, len_of(&cache, 1, 1), Ok(9));
    same(&rt, len_of(&cache, 4, 1), Err(PublishError::Clash));
    Ok(())
}

/// Returns whether two calls for the pair of a schema with itself return one program.
fn is_kept(
    alloc: Global,
    cache: &ProgramCache<'_>,
    receipt: &mut Receipt,
) -> Result<bool, PublishError>
    requires { IsReceiptOf cache.now receipt.old }
{
    let mut again = receipt.again();
    let first = disassemble(alloc, cache.program(receipt, &mut again)?.program())?;
    let second = disassemble(alloc, cache.program(&mut again, receipt)?.program())?;
    Ok(first == second)
}

#[test]
fn one_receipt_gives_one_program(rt: HostRuntime) -> Result<(), Fail> {
    let alloc = rt.alloc();
    let registry = SharedRegistry::new(alloc)?;
    register_lines(&rt, alloc, &registry, TEXTS)?;
    let cache = ProgramCache::new(alloc, &registry)?;
    let Some((_, mut receipt)) = registry.find(2) else {
        panic!(rt; "no schema has this id");
    };
    same(&rt, is_kept(alloc, &cache, &mut receipt), Ok(true));
    Ok(())
}

/// Returns how many instructions the program has that is published for two schemas.
fn published_len(
    cache: &ProgramCache<'_>,
    writer: &Schema,
    reader: &Schema,
) -> Result<usize, PublishError> {
    Ok(cache.publish(writer, reader)?.program().len())
}

/// Returns the listing of the program that is published for two schemas.
pub(crate) fn published_listing(
    alloc: Global,
    cache: &ProgramCache<'_>,
    writer: &Schema,
    reader: &Schema,
) -> Result<String, PublishError> {
    Ok(disassemble(alloc, cache.publish(writer, reader)?.program())?)
}

/// Returns the listing of the program that is published for a text with itself.
fn listing_of_text(alloc: Global, cache: &ProgramCache<'_>, text: &str) -> Result<String, Fail> {
    let schema = Schema::parse(alloc, text)?;
    Ok(published_listing(alloc, cache, &schema, &schema)?)
}

/// Returns how many instructions the program has that is published for two texts; `None` where they clash with others.
fn len_of_texts(
    alloc: Global,
    cache: &ProgramCache<'_>,
    writer: &str,
    reader: &str,
) -> Result<Option<usize>, Fail> {
    let writer = Schema::parse(alloc, writer)?;
    let reader = Schema::parse(alloc, reader)?;
    match published_len(cache, &writer, &reader) {
        Ok(len) => Ok(Some(len)),
        Err(PublishError::Clash) => Ok(None),
        Err(error) => Err(error.into()),
    }
}

/// Asserts that the programs of schemas that are registered are published for their texts, and those of others are not.
fn assert_published(rt: &impl Abort, alloc: Global, cache: &ProgramCache<'_>) -> Result<(), Fail> {
    const INT: &str = " \"int\" ";
    const LONG: &str = "\"long\"";
    let listing = listing_of_text(alloc, cache, RECORD)?;
    let of_int = len_of_texts(alloc, cache, INT, INT)?;
    let from_int = len_of_texts(alloc, cache, INT, LONG)?;
    let to_int = len_of_texts(alloc, cache, LONG, INT)?;
    same(rt, listing.as_str(), RECORD_LISTING);
    same(rt, of_int, Some(2));
    same(rt, (from_int, to_int), (None, None));
    Ok(())
}

#[test]
fn schemas_are_published_by_their_texts(rt: HostRuntime) -> Result<(), Fail> {
    let alloc = rt.alloc();
    let registry = SharedRegistry::new(alloc)?;
    register_lines(&rt, alloc, &registry, TEXTS)?;
    let cache = ProgramCache::new(alloc, &registry)?;
    assert_published(&rt, alloc, &cache)
}

/// Returns the texts of a union of 648 records R without fields, and of a record R of 200 fields, all by default.
fn wide_texts(alloc: Global) -> Result<String, AllocError> {
    let mut text = String::new(alloc);
    for number in 0..648 {
        let before = if number == 0 { "[" } else { "," };
        write!(
            text,
            "{before}{{\"type\":\"record\",\"name\":\"n{number}.R\",\"fields\":[]}}"
        )?;
    }
    text.push_str("]\n{\"type\":\"record\",\"name\":\"R\",\"fields\":")?;
    for number in 0..200 {
        let before = if number == 0 { "[" } else { "," };
        write!(
            text,
            "{before}{{\"name\":\"f{number}\",\"type\":\"int\",\"default\":0}}"
        )?;
    }
    text.push_str("]}")?;
    Ok(text)
}

#[test]
fn a_pair_without_program_is_refused(rt: HostRuntime) -> Result<(), Fail> {
    let alloc = rt.alloc();
    let registry = SharedRegistry::new(alloc)?;
    let texts = wide_texts(alloc)?;
    register_lines(&rt, alloc, &registry, &texts)?;
    let cache = ProgramCache::new(alloc, &registry)?;
    same(
        &rt,
        len_of(&cache, 1, 2),
        Err(PublishError::ProgramTooLarge),
    );
    same(
        &rt,
        len_of(&cache, 1, 2),
        Err(PublishError::ProgramTooLarge),
    );
    assert!(rt; len_of(&cache, 2, 2).is_ok());
    Ok(())
}

/// Returns the texts of `count` fixeds, each with its own name.
fn fixed_texts(alloc: Global, count: usize) -> Result<String, AllocError> {
    let mut text = String::new(alloc);
    for number in 0..count {
        write!(
            text,
            "{{\"type\":\"fixed\",\"name\":\"F{number}\",\"size\":1}}\n"
        )?;
    }
    Ok(text)
}

/// Returns whether each of nine pairs, which have the same eight slots of the cache's table, has its own program.
fn nine_have_own(alloc: Global, cache: &ProgramCache<'_>) -> Result<bool, PublishError> {
    for number in 0..9_u32 {
        if !has_own(alloc, cache, 1 + number, 1 + 251 * (8 - number))? {
            return Ok(false);
        }
    }
    Ok(true)
}

#[test]
fn pairs_with_the_same_slots_have_their_own_programs(rt: HostRuntime) -> Result<(), Fail> {
    let alloc = rt.alloc();
    let registry = SharedRegistry::new(alloc)?;
    let texts = fixed_texts(alloc, 2_009)?;
    register_lines(&rt, alloc, &registry, &texts)?;
    let cache = ProgramCache::new(alloc, &registry)?;
    same(&rt, nine_have_own(alloc, &cache), Ok(true));
    same(&rt, nine_have_own(alloc, &cache), Ok(true));
    Ok(())
}

/// Returns whether all pairs have their own programs, as each of four threads finds it.
fn asked_by_four<R: Threads + Sync>(
    rt: &R,
    alloc: Global,
    cache: &ProgramCache<'_>,
) -> Result<Vec<Result<bool, PublishError>>, AllocError> {
    thread::map_indices(rt, alloc, 4, &|_thread| all_have_own(alloc, cache))
}

#[test]
fn four_threads_ask_for_the_same_pairs(rt: HostRuntime) -> Result<(), Fail> {
    let alloc = rt.alloc();
    let registry = SharedRegistry::new(alloc)?;
    register_lines(&rt, alloc, &registry, TEXTS)?;
    let cache = ProgramCache::new(alloc, &registry)?;
    let found = asked_by_four(&rt, alloc, &cache)?;
    same(&rt, found.as_slice(), [Ok(true); 4].as_slice());
    Ok(())
}
