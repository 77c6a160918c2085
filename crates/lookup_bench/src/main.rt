//! Tests and bench; a program.
//!
//! Measures how long a thread takes to find the schema that an id of an upstream registry names (`bench/lookup.sh`).
//! Its argument is the number of finds among schemas of each length, 1,000,000 where there is none. It prints the times
//! on standard error, and ends with status 1 where a schema is not found.
#![tactic(auto)]

mod error;
mod finds;
mod steady_upstream;

use error::BenchError;
use finds::{print, time_of};
use schema_registry::SharedRegistry;
use std::alloc::Global;
use std::process::ExitCode;
use std::rt::Env;
use std::sync::Wait;
use std::time::Clock;
use steady_upstream::SteadyUpstream;
use upstream_answers::Place;
use upstream_schemas::UpstreamSchemas;

/// The numbers of bytes of the schemas' texts.
const LENGTHS: [usize; 3] = [100, 1_000, 10_000];

/// The number of finds where no argument says another.
const FINDS: u64 = 1_000_000;

/// Returns the number of finds that the words ask for.
fn finds_in(rt: &(impl Env + AllocGlobal)) -> Result<u64, BenchError> {
    let Ok(mut words) = std::env::args(rt) else {
        return Err(BenchError::Words);
    };
    match words.nth(1) {
        Some(word) => match word.as_str().parse() {
            Ok(finds) if finds > 0 => Ok(finds),
            _ => Err(BenchError::Words),
        },
        None => Ok(FINDS),
    }
}

/// Measures finds among schemas whose texts have about a number of bytes, and prints the times.
fn measure<R: Wait + Clock + Eprint>(
    rt: &R,
    alloc: Global,
    length: usize,
    finds: u64,
) -> Result<(), BenchError> {
    let registry = SharedRegistry::new(alloc)?;
    let place = Place {
        host: String::from_str(alloc, "registry")?,
        prefix: String::new(alloc),
        credentials: String::new(alloc),
    };
    let schemas = UpstreamSchemas::new(rt, alloc, &registry, place)?;
    let upstream = SteadyUpstream { alloc, length };
    for id in [100_001, 100_002] {
        if schemas.ask(rt, &upstream, id).is_err() {
            return Err(BenchError::NotFound);
        }
    }
    print(rt, length, finds, time_of(rt, &schemas, finds)?)
}

/// Measures finds among schemas of each length.
fn measure_all<R: Wait + Clock + Eprint + Env + AllocGlobal>(rt: &R) -> Result<(), BenchError> {
    let finds = finds_in(rt)?;
    for length in LENGTHS {
        measure(rt, rt.alloc(), length, finds)?;
    }
    Ok(())
}

fn main(rt: HostRuntime) -> ExitCode {
    match measure_all(&rt) {
        Ok(()) => ExitCode::from(0),
        Err(error) => {
            let _ = eprintln!(&rt; "lookup_bench: {error}");
            ExitCode::from(1)
        }
    }
}
