//! The message, its schemas, and what becomes of it.

ghost use Rattle.std.specs.Prelude.{IfOk};
ghost use Rattle.spec_registry.specs.Receipt.{IsReceiptOf};

use program_cache::ProgramCache;
use schema_registry::{Receipt, Refusal};
use std::alloc::Global;
use std::sync::Wait;

/// The writer's schema, a record of a long and a string.
pub(crate) const WRITER: &str =
    r#"{"type":"record","name":"T","fields":[{"name":"a","type":"long"},{"name":"b","type":"string"}]}"#;

/// The reader's, the same with its fields the other way round.
pub(crate) const READER: &str =
    r#"{"type":"record","name":"T","fields":[{"name":"b","type":"string"},{"name":"a","type":"long"}]}"#;

/// The message.
pub(crate) const MESSAGE: &[u8] = &[0x36, 0x06, 0x66, 0x6f, 0x6f];

/// What becomes of it.
pub(crate) const OUTPUT: &[u8] = &[0x06, 0x66, 0x6f, 0x6f, 0x36];

/// Registers a schema with the registry of a cache.
pub(crate) fn registered<R: Wait>(
    rt: &R,
    alloc: Global,
    cache: &ProgramCache<'_>,
    subject: &str,
    text: &str,
) -> Result<Receipt, Refusal>
    ensures { IfOk result (IsReceiptOf cache.now) }
{
    let subject = String::from_str(alloc, subject)?;
    let text = String::from_str(alloc, text)?;
    let (_id, receipt) = cache.registry().register(rt, subject, text)?;
    Ok(receipt)
}
