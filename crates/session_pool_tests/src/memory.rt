//! Sessions in a slot whose last session had a large payload.

ghost use Rattle.session_pool.specs.Seats.{Rests, RestsWorker};

use crate::courses::{Course, fed, run_through};
use crate::same::same;
use crate::schemas::{
    LIST_BYTES, LONG_LIST, RECORD, RECORD_BYTES, SWAPPED, SWAPPED_BYTES, registered,
};
use crate::trials::{Trial, try_in_new_pool};
use session_pool::{ClientSeat, SessionPool, WorkerSeat};
use std::alloc::{AllocError, Global};
use std::process::Abort;
use std::sync::Wait;
use std::test::Fail;

/// Returns a payload of the record with a string of 1 MiB.
fn large_payload(alloc: Global) -> Result<Vec<u8>, AllocError> {
    let mut payload = Vec::from_slice(alloc, &[0x36, 0x80, 0x80, 0x80, 0x01])?;
    for _ in 0..1 << 20 {
        payload.push(b'a')?;
    }
    Ok(payload)
}

/// What three sessions came to, one after another.
#[derive(Drop)]
struct Courses {
    first: Course,
    second: Course,
    third: Course,
}

/// Runs a session from the record to its swapped form on a payload, one of a list, and one back to the record.
fn run_three<'p, R: Wait>(
    rt: &R,
    alloc: Global,
    pool: &SessionPool<'p>,
    client: &mut ClientSeat<'p>,
    worker: &mut WorkerSeat<'p>,
    payload: &[u8],
) -> Result<Courses, Fail>
    requires client { Rests pool.now client.old }
    requires worker { RestsWorker pool.now worker.old }
{
    let mut unswapped = registered(rt, alloc, pool, "s", RECORD)?;
    let mut swapped = registered(rt, alloc, pool, "t", SWAPPED)?;
    let mut list = registered(rt, alloc, pool, "u", LONG_LIST)?;
    let mut again = list.again();
    let (writer, reader) = (&mut unswapped, &mut swapped);
    let pass = fed(alloc, pool, client, writer, reader, payload)?;
    let first = run_through(pool, client, worker, pass)?;
    let pass = fed(alloc, pool, client, &mut list, &mut again, LIST_BYTES)?;
    let second = run_through(pool, client, worker, pass)?;
    let pass = fed(alloc, pool, client, reader, writer, SWAPPED_BYTES)?;
    let third = run_through(pool, client, worker, pass)?;
    Ok(Courses {
        first,
        second,
        third,
    })
}

/// Asserts that three sessions come to their outputs in one slot, of which the first had a large payload.
pub(crate) fn assert_used_again<'p, R: Wait + Abort>(
    rt: &R,
    alloc: Global,
    pool: &SessionPool<'p>,
    client: &mut ClientSeat<'p>,
    worker: &mut WorkerSeat<'p>,
) -> Result<(), Fail>
    requires client { Rests pool.now client.old }
    requires worker { RestsWorker pool.now worker.old }
{
    let large = large_payload(alloc)?;
    let Courses {
        first,
        second,
        third,
    } = run_three(rt, alloc, pool, client, worker, &large)?;
    same(rt, (first.slot, second.slot, third.slot), (0, 0, 0));
    same(rt, first.output.len(), large.len());
    same(rt, first.output.get(4..8), Some([b'a'; 4].as_slice()));
    same(rt, first.output.last(), Some(&0x36));
    same(rt, second.output.as_slice(), LIST_BYTES);
    same(rt, third.output.as_slice(), RECORD_BYTES);
    Ok(())
}

#[test]
fn a_slot_is_used_again(rt: HostRuntime) -> Result<(), Fail> {
    try_in_new_pool(&rt, Trial::UsingAgain)
}
