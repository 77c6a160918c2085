//! Schemas, and how they are registered.

ghost use Rattle.std.specs.Prelude.{IfOk};
ghost use Rattle.spec_registry.specs.Receipt.{IsReceiptOf};

use schema_registry::{Receipt, Refusal, SharedRegistry};
use session_pool::SessionPool;
use std::alloc::Global;
use std::sync::Wait;

/// A record of a long and a string.
pub(crate) const RECORD: &str =
    r#"{"type":"record","name":"T","fields":[{"name":"a","type":"long"},{"name":"b","type":"string"}]}"#;

/// That record with its fields the other way round.
pub(crate) const SWAPPED: &str =
    r#"{"type":"record","name":"T","fields":[{"name":"b","type":"string"},{"name":"a","type":"long"}]}"#;

/// A long, and the rest of the list where there is one.
pub(crate) const LONG_LIST: &str = r#"{"type":"record","name":"LongList","fields":
[{"name":"value","type":"long"},{"name":"next","type":["null","LongList"]}]}"#;

/// A payload of the list of 1 and 2.
pub(crate) const LIST_BYTES: &[u8] = &[0x02, 0x02, 0x04, 0x00];

/// Registers a schema.
pub(crate) fn registered<R: Wait>(
    rt: &R,
    alloc: Global,
    registry: &SharedRegistry,
    subject: &str,
    text: &str,
) -> Result<Receipt, Refusal>
    ensures { IfOk result (IsReceiptOf registry.now) }
{
    let subject = String::from_str(alloc, subject)?;
    let text = String::from_str(alloc, text)?;
    let (_id, receipt) = registry.register(rt, subject, text)?;
    Ok(receipt)
}

/// Registers the record, and that record with its fields the other way round. Returns whether both are registered.
pub(crate) fn are_both_registered<R: Wait>(
    rt: &R,
    alloc: Global,
    registry: &SharedRegistry,
) -> bool {
    let mut right = registered(rt, alloc, registry, "s", RECORD).is_ok();
    right &= registered(rt, alloc, registry, "t", SWAPPED).is_ok();
    right
}

/// Registers the schema of lists in the registry of a pool.
pub(crate) fn list_registered<R: Wait>(
    rt: &R,
    alloc: Global,
    pool: &SessionPool<'_>,
) -> Result<Receipt, Refusal>
    ensures { IfOk result (IsReceiptOf pool.now.cache.now) }
{
    let receipt = registered(rt, alloc, pool.cache().registry(), "s", LONG_LIST)?;
    Ok(receipt)
}
