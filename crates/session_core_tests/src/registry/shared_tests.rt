//! A registry that threads share.

use crate::registry::answers::{answer_to, found, register, shown};
use schema_registry::{Refusal, SharedRegistry};
use std::alloc::Global;
use std::sync::Wait;
use std::test::Fail;
use std::thread;
use std::thread::Threads;

/// Texts of eight schemas.
const TEXTS: &str = r#""null"
"boolean"
"int"
"long"
"bytes"
"string"
{"type":"array","items":"int"}
{"type":"fixed","name":"F","size":2}"#;

/// Their compact texts.
const SHOWN: &str = r#""null"
"boolean"
"int"
"long"
"bytes"
"string"
{"items":"int","type":"array"}
{"name":"F","size":2,"type":"fixed"}
"#;

/// Registers the eight texts, from one of them on and then those before it, and returns whether each has one of the
/// first eight ids, under which is found what its receipt shows.
fn are_registered<R: Wait>(
    rt: &R,
    alloc: Global,
    shared: &SharedRegistry,
    first: usize,
) -> Result<bool, Refusal> {
    for text in TEXTS.lines().skip(first).chain(TEXTS.lines().take(first)) {
        let mut receipt = register(rt, alloc, shared, text)?;
        let id = receipt.id();
        if id > 8 || shown(shared, &mut receipt) != found(shared, id) {
            return Ok(false);
        }
    }
    Ok(true)
}

/// Returns under how many of the ids from 1 to 8 a text is found.
fn times_found(shared: &SharedRegistry, text: &str) -> usize {
    (1..=8_u32).filter(|id| found(shared, *id) == text).count()
}

/// Returns whether four threads register the eight texts, each from another one on, and each compact text is then
/// found under one id.
fn have_eight_ids<R: Threads + Wait + Sync>(rt: &R, alloc: Global) -> Result<bool, Refusal> {
    let shared = SharedRegistry::new(alloc)?;
    answer_to(rt, alloc, &shared, "set * NONE")?;
    let all = thread::map_indices(
        rt,
        alloc,
        4,
        &|first| are_registered(rt, alloc, &shared, first),
    )?;
    for registered in all {
        if !registered? {
            return Ok(false);
        }
    }
    Ok(SHOWN.lines().all(|text| times_found(&shared, text) == 1))
}

#[test]
fn four_threads_register_the_same_texts(rt: HostRuntime) -> Result<(), Fail> {
    let found = have_eight_ids(&rt, rt.alloc())?;
    assert!(rt; found);
    Ok(())
}
