//! What a registry answers to commands in a row.

use crate::registry::answers::{answer_to, answered_by, rows_after};
use crate::registry::lines::command_of;
use crate::registry::rows::{
    EACH_ID, EACH_LEVEL, EACH_SUBJECT, FORWARD, FULL, LATEST, LEVELS, MANY, NO_IDS, NO_LEVELS,
    NO_SUBJECTS, NUMBERED, OWN, REFUSALS, SHARED, SUBJECTS, TRANSITIVE, VERSIONS,
};
use crate::same::same;
use schema_registry::{
    LONGEST_SUBJECT, MOST_LEVELS, MOST_SCHEMAS, MOST_SUBJECTS, Refusal, SharedRegistry,
};
use std::alloc::Global;
use std::process::Abort;
use std::sync::Wait;
use std::test::Fail;

/// Asserts that a new registry answers each command as its row has it, after other rows that have the numbers from 1
/// to a count in place of `#`.
fn assert_after(
    rt: &(impl Abort + AllocGlobal + Wait),
    numbered_rows: &str,
    count: usize,
    rows: &str,
) -> Result<(), Fail> {
    let shared = SharedRegistry::new(rt.alloc())?;
    let wanted = rows_after(rt.alloc(), numbered_rows, count, rows)?;
    let answered = answered_by(rt, rt.alloc(), &shared, &wanted, 2)?;
    same(rt, answered.as_str(), wanted.as_str());
    Ok(())
}

/// Asserts that a new registry answers each command as its row has it, for each of some tables of rows.
fn assert_rows(rt: &(impl Abort + AllocGlobal + Wait), tables: &[&str]) -> Result<(), Fail> {
    for rows in tables {
        assert_after(rt, "", 0, rows)?;
    }
    Ok(())
}

#[test]
fn answers_each_question(rt: HostRuntime) -> Result<(), Fail> {
    assert_rows(&rt, &[VERSIONS, SUBJECTS, SHARED])
}

#[test]
fn levels_compare_what_they_name(rt: HostRuntime) -> Result<(), Fail> {
    assert_rows(&rt, &[FORWARD, FULL, LATEST, TRANSITIVE, OWN, LEVELS])
}

#[test]
fn refuses_in_order(rt: HostRuntime) -> Result<(), Fail> {
    assert_rows(&rt, &[REFUSALS])
}

#[test]
fn maps_grow(rt: HostRuntime) -> Result<(), Fail> {
    assert_after(&rt, NUMBERED, 30, MANY)
}

#[test]
fn registries_are_full_at_their_limits(rt: HostRuntime) -> Result<(), Fail> {
    assert_after(&rt, EACH_ID, MOST_SCHEMAS, NO_IDS)?;
    assert_after(&rt, EACH_SUBJECT, MOST_SUBJECTS, NO_SUBJECTS)?;
    assert_after(&rt, EACH_LEVEL, MOST_LEVELS, NO_LEVELS)
}

/// Commands that let a registry grow.
const GROWING: &str = r#"register s "int"
register s "long"
register u "int"
set s NONE
register s "string"
set u FULL
"#;

/// Questions of each kind.
const QUESTIONS: &str = "subjects
versions s
versions u
version s latest
level s
level u
schema 1
schema 2
schema 3
";

/// What is answered to them once all of these were accepted.
const GROWN: &str = r#"subjects
names ["s", "u"]
versions s
numbers [1, 2, 3]
versions u
numbers [1]
version s latest
entry s 3 3 "string"
level s
NONE
level u
FULL
schema 1
text "int"
schema 2
text "long"
schema 3
text "string"
"#;

/// Returns whether a registry that has no memory for the command of a line answers the questions as before.
fn is_kept<R: Wait>(
    rt: &R,
    alloc: Global,
    shared: &SharedRegistry,
    line: &str,
) -> Result<bool, Refusal> {
    let before = answered_by(rt, alloc, shared, QUESTIONS, 1)?;
    let command = command_of(alloc, line)?;
    if shared.apply(rt, command).err() != Some(Refusal::NoMemory) {
        return Ok(true);
    }
    Ok(answered_by(rt, alloc, shared, QUESTIONS, 1)? == before)
}

/// Returns what a new registry answers to the questions that keeps out each growth that is refused, and makes it
/// where it is asked for again; or the line of a growth that is not kept out.
fn grown<R: Wait>(rt: &R, alloc: Global) -> Result<String, Refusal> {
    let shared = SharedRegistry::new(alloc)?;
    for line in GROWING.lines() {
        if !is_kept(rt, alloc, &shared, line)? {
            return Ok(String::from_str(alloc, line)?);
        }
        answer_to(rt, alloc, &shared, line)?;
    }
    Ok(answered_by(rt, alloc, &shared, QUESTIONS, 1)?)
}

#[test]
fn a_growth_without_memory_changes_nothing(rt: HostRuntime) -> Result<(), Fail> {
    let found = grown(&rt, rt.alloc())?;
    same(&rt, found.as_str(), GROWN);
    Ok(())
}

#[test]
fn names_are_within_255_bytes(rt: HostRuntime) -> Result<(), Fail> {
    let name = "x".repeat(rt.alloc(), LONGEST_SUBJECT)?;
    let rows = "level #\nBACKWARD\nlevel #x\nrefused BadSubject\n".replace(rt.alloc(), '#', &name)?;
    assert_after(&rt, "", 0, &rows)
}
