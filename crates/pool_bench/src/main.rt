//! Tests and bench; a program.
//!
//! Measures sessions of one small message in a pool, beside one transcoder of the same message (`bench/pool.sh`). Its
//! argument is how many sessions each way runs, 200,000 where there is none. It prints the times on the standard
//! error, and ends with status 1 where an answer is wrong or missing.
#![tactic(auto)]

mod answers;
mod by_threads;
mod error;
mod figures;
mod message;
mod on_one_thread;
mod seats;
mod transcoding;
mod waiting;
mod words;

ghost use Rattle.std.specs.Prelude.{◌≡◌};
ghost use Rattle.spec_registry.specs.Receipt.{IsReceiptOf};

use by_threads::Load;
use error::BenchError;
use figures::{Measured, tell, tell_share};
use message::{READER, WRITER, registered};
use program_cache::ProgramCache;
use schema_registry::{Receipt, SharedRegistry};
use std::alloc::Global;
use std::process::ExitCode;
use std::rt::Env;
use std::sync::Wait;
use std::thread::Threads;
use std::time::Clock;

/// Runs the sessions by a pool in each way, and prints the times of each. Returns what one thread took.
fn measure_pools<R: Threads + Clock + Sync + Eprint>(
    rt: &R,
    alloc: Global,
    cache: &ProgramCache<'_>,
    writer: &mut Receipt,
    reader: &mut Receipt,
    sessions: u64,
) -> Result<Measured, BenchError>
    requires writer { IsReceiptOf cache.now writer.old }
    requires reader { IsReceiptOf cache.now reader.old }
{
    let alone = on_one_thread::measure(rt, alloc, cache, writer, reader, sessions)?;
    tell(rt, "pool, one thread", sessions, alone)?;
    let one = by_threads::measure(rt, alloc, cache, writer, reader, Load::of(sessions, 1))?;
    tell(rt, "pool, 1 worker", sessions, one)?;
    let two = by_threads::measure(rt, alloc, cache, writer, reader, Load::of(sessions, 2))?;
    tell(rt, "pool, 2 workers", sessions, two)?;
    let four = by_threads::measure(rt, alloc, cache, writer, reader, Load::of(sessions, 4))?;
    tell(rt, "pool, 4 workers", sessions, four)?;
    Ok(alone)
}

/// Runs the sessions as `measure_pools` does, over a registry of its own that has both schemas.
fn measure_all_pools<R: Threads + Wait + Clock + Sync + Eprint>(
    rt: &R,
    alloc: Global,
    sessions: u64,
) -> Result<Measured, BenchError> {
    let registry = SharedRegistry::new(alloc)?;
    let cache = ProgramCache::new(alloc, &registry)?;
    let (Ok(mut writer), Ok(mut reader)) = (
        registered(rt, alloc, &cache, "writer", WRITER),
        registered(rt, alloc, &cache, "reader", READER),
    ) else {
        return Err(BenchError::Refused);
    };
    measure_pools(rt, alloc, &cache, &mut writer, &mut reader, sessions)
}

/// Runs the sessions in each way, and prints the times of each, and how much of a session on one thread is not the
/// machine's.
fn measure_all<R: Threads + Wait + Clock + Sync + Env + Eprint + AllocGlobal>(
    rt: &R,
) -> Result<(), BenchError> {
    let sessions = words::sessions(rt)?;
    let transcoder = transcoding::measure(rt, rt.alloc(), sessions)?;
    tell(rt, "transcoder", sessions, transcoder)?;
    let alone = measure_all_pools(rt, rt.alloc(), sessions)?;
    tell_share(rt, sessions, alone, transcoder)
}

fn main(rt: HostRuntime) -> ExitCode {
    match measure_all(&rt) {
        Ok(()) => ExitCode::from(0),
        Err(error) => {
            let _told = eprintln!(&rt; "pool_bench: {error}");
            ExitCode::from(1)
        }
    }
}
