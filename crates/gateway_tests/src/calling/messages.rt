//! A caller of `machine`.

ghost use Rattle.std.specs.Prelude.{IfOk, IfSome};
ghost use Rattle.spec_avro.specs.Outcome.{Done};
ghost use Rattle.spec_avro.specs.PayloadOutcome.{IsOutcome};

use avro_schema::Schema;
use machine::{Outcome, PairError, transcode};
use std::alloc::Global;

/// Returns the reader's encoding of the datum that a payload has in the writer's. None where the payload has another
/// outcome: a mismatch, a malformation or an output that is too large. The error says that the pair's program or the
/// payload passes a limit, or that memory ran out.
pub fn rewrite(
    alloc: Global,
    writer: &Schema,
    reader: &Schema,
    payload: &[u8],
) -> Result<Option<Vec<u8>>, PairError>
    ensures { IfOk result (λ done. IfSome done (λ output.
        IsOutcome writer.now.nodes reader.now.nodes payload.now (Done output.items))) }
{
    match transcode(alloc, writer.nodes(), reader.nodes(), payload)? {
        Outcome::Done(output) => Ok(Some(output)),
        _ => Ok(None),
    }
}
