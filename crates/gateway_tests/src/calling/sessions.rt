//! A caller of `session_pool`.

ghost use Rattle.std.specs.Prelude.{◌≡◌, ◌≤◌, IfSome, vec_len};
ghost use Rattle.spec_avro.specs.Outcome.{outcome_of};
ghost use Rattle.spec_avro.specs.PayloadOutcome.{IsOutcome};
ghost use Rattle.spec_registry.specs.Receipt.{IsReceiptOf};
ghost use Rattle.session_pool.specs.Seats.{Rests, RestsWorker};

use avro_bytes::Outcome;
use schema_registry::Receipt;
use session_pool::{ClientSeat, Finished, Pass, SessionEnd, SessionPool, WorkerSeat};

/// Returns the outcome of a payload between the schemas of two receipts, by a session that a worker of this thread
/// runs. None where the pool opens none, another worker has the session, or memory ran out; then it is given up.
pub fn outcome_by_one_turn<'p>(
    pool: &SessionPool<'p>,
    client: &mut ClientSeat<'p>,
    worker: &mut WorkerSeat<'p>,
    writer: &mut Receipt,
    reader: &mut Receipt,
    payload: Vec<u8>,
) -> Option<Outcome>
    requires client { Rests pool.now client.old }
    requires worker { RestsWorker pool.now worker.old }
    requires writer { IsReceiptOf pool.now.cache.now writer.old }
    requires reader { IsReceiptOf pool.now.cache.now reader.old }
    ensures client { Rests pool.now client.new }
    ensures worker { RestsWorker pool.now worker.new }
    ensures outcome { IfSome result (λ outcome. IfSome writer.old.schema (λ w. IfSome reader.old.schema (λ r.
        IsOutcome w.nodes r.nodes payload.items (outcome_of outcome)))) }
{
    let pass = pool.open(client, writer, reader).ok()?;
    if pool.piece(client, &pass, payload).is_err() || pool.end(client, &pass).is_err() {
        let _busy = pool.abandon(client, pass);
        return None;
    }
    let _turn = pool.turn(worker, u64::MAX);
    match pool.result(client, pass) {
        Ok(
            Finished {
                end: SessionEnd::Out(outcome),
                ..
            },
        ) => Some(outcome),
        Ok(_) => None,
        Err(back) => {
            let _busy = pool.abandon(client, back.pass);
            None
        }
    }
}
