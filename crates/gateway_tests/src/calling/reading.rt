//! A caller of `resolver`.

ghost use Rattle.std.specs.Prelude.{IfOk, IsTrue, ◌↔◌};
ghost use Rattle.spec_avro.specs.Safety.{IsSafe};

use avro_schema::Schema;
use resolver::can_read;
use std::alloc::{AllocError, Global};

/// Returns whether a reader of one schema can read each datum that a writer of another one writes, but for bytes that
/// are no UTF-8. The error is want of memory.
pub fn reads_each_datum(alloc: Global, writer: &Schema, reader: &Schema) -> Result<bool, AllocError>
    ensures { IfOk result (λ yes. IsTrue yes ↔ IsSafe writer.now.nodes reader.now.nodes) }
{
    can_read(alloc, writer.nodes(), reader.nodes())
}
