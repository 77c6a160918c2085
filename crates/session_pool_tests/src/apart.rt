//! Two workers at once, of which one is held inside of a session until the other has run the second.

ghost use Rattle.std.specs.Prelude.{All};
ghost use Rattle.session_pool.specs.Seats.{IsNewWorker, IsPassOf, Rests, RestsWorker};

use crate::courses::fed;
use crate::schemas::{RECORD, RECORD_BYTES, registered};
use crate::seats::{Seated, last_client, new_pool, pop_worker};
use crate::waiting::{MOST_TRIES, finished_in_time, is_set_within};
use program_cache::ProgramCache;
use schema_registry::SharedRegistry;
use session_pool::{ClientSeat, Pass, SessionPool, Turn, WorkerSeat};
use std::alloc::{AllocError, Global};
use std::process::Abort;
use std::sync::Wait;
use std::sync::atomic::{AtomicBool, Ordering};
use std::test::Fail;
use std::thread;
use std::thread::Threads;

/// How often the worker inside of the first session looks whether the second is answered.
const MOST_LOOKS: u32 = 1_000_000;

/// What the threads signal to one another.
#[derive(Drop)]
pub(crate) struct Flags {
    /// The second session is answered.
    is_answered: AtomicBool,
    /// It was not while the first was held.
    is_late: AtomicBool,
    /// Both are answered, or no more are waited for.
    is_over: AtomicBool,
}

/// A worker.
#[derive(Drop)]
struct Working<'a, 'p> {
    pool: &'a SessionPool<'p>,
    flags: &'a Flags,
    seat: WorkerSeat<'p>,
    ghost ready: { RestsWorker pool.now seat },
}

/// A client of the first session, in slot 0, and one of the second.
#[derive(Drop)]
struct Waiting<'a, 'p> {
    pool: &'a SessionPool<'p>,
    flags: &'a Flags,
    first: ClientSeat<'p>,
    first_pass: Pass,
    second: ClientSeat<'p>,
    second_pass: Pass,
    ghost ready: { Rests pool.now first × Rests pool.now second },
}

/// Stays inside of the first session until the second is answered.
fn stay(flags: &Flags) {
    if !is_set_within(&flags.is_answered, MOST_LOOKS) {
        flags.is_late.store(true, Ordering::SeqCst);
    }
}

/// Takes turns until both sessions are answered. Returns how many sessions it ran.
fn work(working: Working) -> u64 {
    let Working {
        pool,
        flags,
        mut seat,
    } = working;
    let mut ran = 0_u64;
    for _ in 0..MOST_TRIES {
        if flags.is_over.load(Ordering::SeqCst) {
            break;
        }
        let turn = pool.turn_at(
            &mut seat,
            1000,
            &mut |slot: u32| {
                if slot == 0 {
                    stay(flags);
                }
            },
        );
        match turn {
            Turn::Ran { .. } => ran = ran.wrapping_add(1),
            Turn::Idle => thread::yield_now(),
        }
    }
    ran
}

/// Returns whether both sessions are answered, the second first.
fn wait(waiting: Waiting) -> bool
    requires { IsPassOf waiting.first waiting.first_pass × IsPassOf waiting.second waiting.second_pass }
{
    let Waiting {
        pool,
        flags,
        mut first,
        first_pass,
        mut second,
        second_pass,
    } = waiting;
    let of_second = finished_in_time(pool, &mut second, second_pass);
    flags.is_answered.store(true, Ordering::SeqCst);
    let of_first = finished_in_time(pool, &mut first, first_pass);
    flags.is_over.store(true, Ordering::SeqCst);
    of_first.is_ok() && of_second.is_ok()
}

/// Returns what each worker receives.
fn all_working<'a, 'p>(
    alloc: Global,
    pool: &'a SessionPool<'p>,
    flags: &'a Flags,
    mut seats: Vec<WorkerSeat<'p>>,
) -> Result<Vec<Working<'a, 'p>>, AllocError>
    requires { All (IsNewWorker pool.now) seats.items }
{
    let mut working = Vec::new(alloc);
    for _ in 0..seats.len() {
        let Some(seat) = pop_worker(pool, &mut seats) else {
            return Ok(working);
        };
        working.push(Working { pool, flags, seat })?;
    }
    Ok(working)
}

/// Runs each worker in a thread of its own.
fn work_all<'a, 'p, R: Threads + Sync>(
    rt: &R,
    workers: Vec<Working<'a, 'p>>,
) -> Result<Vec<u64>, AllocError> {
    thread::map_vec(rt, workers, &|working: Working<'_, '_>| work(working))
}

/// Runs all threads at once. Returns whether both sessions are answered, the second first.
fn run_all<'a, 'p, R: Threads + Sync>(
    rt: &R,
    workers: Vec<Working<'a, 'p>>,
    waiting: Waiting<'a, 'p>,
) -> Result<bool, AllocError>
    requires { IsPassOf waiting.first waiting.first_pass × IsPassOf waiting.second waiting.second_pass }
{
    let (worked, waited) = thread::join(rt, || work_all(rt, workers), || wait(waiting));
    worked?;
    Ok(waited)
}

/// Asserts that two sessions are answered, the second while a worker is inside of the first.
fn assert_at_once<'a, 'p, R: Threads + Wait + Abort + AllocGlobal + Sync>(
    rt: &R,
    pool: &'a SessionPool<'p>,
    flags: &'a Flags,
    mut first: ClientSeat<'p>,
    mut second: ClientSeat<'p>,
    workers: Vec<WorkerSeat<'p>>,
) -> Result<(), Fail>
    requires first { Rests pool.now first }
    requires second { Rests pool.now second }
    requires workers { All (IsNewWorker pool.now) workers.items }
{
    let (alloc, payload) = (rt.alloc(), RECORD_BYTES);
    let mut receipt = registered(rt, alloc, pool, "s", RECORD)?;
    let mut again = receipt.again();
    let first_pass = fed(alloc, pool, &mut first, &mut receipt, &mut again, payload)?;
    let second_pass = fed(alloc, pool, &mut second, &mut receipt, &mut again, payload)?;
    let workers = all_working(alloc, pool, flags, workers)?;
    let waiting = Waiting {
        pool,
        flags,
        first,
        first_pass,
        second,
        second_pass,
    };
    let are_answered = run_all(rt, workers, waiting)?;
    assert!(rt; are_answered);
    assert!(rt; !flags.is_late.load(Ordering::SeqCst));
    Ok(())
}

#[test]
fn two_workers_run_at_once(rt: HostRuntime) -> Result<(), Fail> {
    let alloc = rt.alloc();
    let registry = SharedRegistry::new(alloc)?;
    let cache = ProgramCache::new(alloc, &registry)?;
    let Seated {
        pool,
        mut clients,
        workers,
    } = new_pool(alloc, &cache, 2, 2)?;
    let first = last_client(&rt, &pool, &mut clients);
    let second = last_client(&rt, &pool, &mut clients);
    let flags = Flags {
        is_answered: AtomicBool::new(false),
        is_late: AtomicBool::new(false),
        is_over: AtomicBool::new(false),
    };
    assert_at_once(&rt, &pool, &flags, first, second, workers)
}
