//! Schemas, and how they are registered.

ghost use Rattle.std.specs.Prelude.{IfOk};
ghost use Rattle.spec_registry.specs.Receipt.{IsReceiptOf};

use schema_registry::{Receipt, Refusal};
use session_pool::SessionPool;
use std::alloc::{AllocError, Global};
use std::sync::Wait;

/// A record of a long and a string.
pub(crate) const RECORD: &str =
    r#"{"type":"record","name":"T","fields":[{"name":"a","type":"long"},{"name":"b","type":"string"}]}"#;

/// That record with its fields the other way round.
pub(crate) const SWAPPED: &str =
    r#"{"type":"record","name":"T","fields":[{"name":"b","type":"string"},{"name":"a","type":"long"}]}"#;

/// A long, and the rest of the list where there is one.
pub(crate) const LONG_LIST: &str = r#"{"type":"record","name":"LongList","fields":
[{"name":"value","type":"long"},{"name":"next","type":["null","LongList"]}]}"#;

/// A payload of the first of them, which is its own written form.
pub(crate) const RECORD_BYTES: &[u8] = &[0x36, 0x06, 0x66, 0x6f, 0x6f];

/// What the second makes of that payload.
pub(crate) const SWAPPED_BYTES: &[u8] = &[0x06, 0x66, 0x6f, 0x6f, 0x36];

/// The listing of the program of the first with itself.
pub(crate) const RECORD_LISTING: &str = "\
avro program 1
0 CALL 2
1 HALT
2 RECORD 2
3 SLOT 0
4 LONG
5 SLOT 1
6 TEXT
7 ENDREC
8 RET
";

/// A payload of the third, a list of 1 and 2.
pub(crate) const LIST_BYTES: &[u8] = &[0x02, 0x02, 0x04, 0x00];

/// Returns the text of a record of as many longs as are asked for.
pub(crate) fn longs(alloc: Global, count: usize) -> Result<String, AllocError> {
    let mut text = String::from_str(alloc, r#"{"type":"record","name":"Longs","fields":"#)?;
    for field in 0..count {
        let before = if field == 0 { "[" } else { "," };
        write!(text, "{before}{{\"name\":\"f{field}\",\"type\":\"long\"}}")?;
    }
    text.push_str("]}")?;
    Ok(text)
}

/// Registers a schema with the registry of a pool's cache.
pub(crate) fn registered<R: Wait>(
    rt: &R,
    alloc: Global,
    pool: &SessionPool<'_>,
    subject: &str,
    text: &str,
) -> Result<Receipt, Refusal>
    ensures { IfOk result (IsReceiptOf pool.now.cache.now) }
{
    let subject = String::from_str(alloc, subject)?;
    let text = String::from_str(alloc, text)?;
    let (_id, receipt) = pool.cache().registry().register(rt, subject, text)?;
    Ok(receipt)
}
