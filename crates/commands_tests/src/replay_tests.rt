//! What `replay` answers where memory runs out.

use commands::replay;
use std::alloc::{AllocError, Global};
use std::test::Fail;

/// Six sessions of two pairs, the first four of which are given the same payload. What makes them comes twice, since
/// memory may run out the first time.
const EVENTS: &str =
    r#"register s {"type":"record","name":"T","fields":[{"name":"a","type":"long"},{"name":"b","type":"string"}]}
register s {"type":"record","name":"T","fields":[{"name":"a","type":"long"},{"name":"b","type":"string"}]}
register u {"type":"record","name":"T","fields":[{"name":"b","type":"string"},{"name":"a","type":"long"}]}
register u {"type":"record","name":"T","fields":[{"name":"b","type":"string"},{"name":"a","type":"long"}]}
publish 1 1
publish 1 1
publish 1 2
publish 1 2
begin 1 1
begin 1 1
begin 1 1
begin 1 2
begin 1 2
begin 1 2
piece 0 3606666f6f
piece 1 3606666f6f
piece 3 3606666f6f
piece 4 3606666f6f
finish 0
finish 1
finish 3
finish 4
slice 0 0 99
slice 1 0 99
slice 3 0 99
slice 4 0 99
result 0
result 1
result 3
result 4
"#;

/// Returns what is answered to events, asked again where memory ran out for the answers.
fn answered(alloc: Global, events: &str) -> Result<String, AllocError> {
    match replay(alloc, events.as_bytes()) {
        Err(AllocError) => replay(alloc, events.as_bytes()),
        answer => answer,
    }
}

/// Returns how many lines report an end on the payload, and how many that memory ran out: for a session, or for an
/// event, which then changed nothing.
fn ends(answers: &str) -> (usize, usize) {
    let done = answers.lines().filter(|line| line.starts_with("done ")
        && line.ends_with(" count 10"));
    let refused = answers.lines().filter(|line| line.starts_with("no memory count ")
        || *line == "refused NoMemory");
    (done.count(), refused.count())
}

#[test]
fn a_refused_growth_ends_one_session(rt: HostRuntime) -> Result<(), Fail> {
    let answers = answered(rt.alloc(), EVENTS)?;
    assert!(rt; matches!(ends(&answers), (4, _) | (3, 1)), "{answers}");
    Ok(())
}
