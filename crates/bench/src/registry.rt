//! Registers schemas in a shared registry: `count` under one subject, then these once more, then under 16 others in
//! turn; and finds `finds` ids. Prints the last id of each round and how many ids showed a schema, and to the
//! standard error the microseconds of each.

use schema_registry::{Refusal, SharedRegistry};
use std::alloc::{AllocError, Global};
use std::io;
use std::rt::Clock;
use std::sync::Wait;
use std::time::Instant;

/// Returns the text of a record that is compatible with the others, and is another schema for each number.
fn text_of(alloc: Global, number: u32) -> Result<String, AllocError> {
    format!(in alloc;
        "{{\"type\":\"record\",\"name\":\"R\",\"fields\":[{{\"name\":\"a\",\"type\":\"long\",\"default\":{number}}}]}}"
    )
}

/// Returns the name of one of `subjects` subjects, by a number that goes round.
fn subject_of(alloc: Global, subjects: u32, number: u32) -> Result<String, AllocError> {
    let place = number % subjects.max(1);
    format!(in alloc; "s{subjects}.{place}")
}

/// Registers `count` schemas as versions of `subjects` subjects in turn, and returns the id of the last.
fn register_all<R: Wait>(
    rt: &R,
    alloc: Global,
    shared: &SharedRegistry,
    count: u32,
    subjects: u32,
) -> Result<u32, Refusal> {
    let mut last = 0;
    for number in 0..count {
        let subject = subject_of(alloc, subjects, number)?;
        (last, _) = shared.register(rt, subject, text_of(alloc, number)?)?;
    }
    Ok(last)
}

/// Returns how many of `finds` ids, which go round from 1 to `count`, show a schema.
fn find_all(shared: &SharedRegistry, count: u32, finds: u32) -> usize {
    (0..finds)
        .filter(|turn| shared.find(turn % count.max(1) + 1).is_some())
        .count()
}

/// Prints the result of a part, and how long it took.
fn tell(
    rt: &(impl Print + Eprint + Clock + AllocGlobal),
    part: &str,
    came_to: usize,
    start: &Instant,
) -> io::Result<()> {
    let micros = start.elapsed(rt)?.as_micros();
    println!(rt; "{part} {came_to}")?;
    eprintln!(rt; "{part} {micros}")
}

/// Measures registering schemas, registering them again and under other subjects, and finding ids.
pub(crate) fn measure<R: Wait + Print + Eprint + Clock + AllocGlobal>(
    rt: &R,
    count: u32,
    finds: u32,
) -> Option<()> {
    let shared = SharedRegistry::new(rt.alloc()).ok()?;
    for (part, subjects) in [("register", 1), ("again", 1), ("others", 16)] {
        let start = Instant::now(rt).ok()?;
        let last = register_all(rt, rt.alloc(), &shared, count, subjects).ok()?;
        tell(rt, part, last as usize, &start).ok()?;
    }
    let start = Instant::now(rt).ok()?;
    let found = find_all(&shared, count, finds);
    tell(rt, "find", found, &start).ok()
}
