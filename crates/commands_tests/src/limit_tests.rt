//! Plans at the limit of an output, and runs that go by their plans whatever their payload's length.

use crate::again::pushed;
use crate::plan_rows::{Planned, ROWS};
use crate::plan_schemas::{EVOLVED, RECORD};
use crate::plan_tests::{letters, planned_program, rows_alone};
use avro_bytes::MOST_OUTPUT;
use machine::Run;
use machine_plan::{PlannedProgram, Scratch};
use std::alloc::{AllocError, Global};
use std::test::Fail;

/// Returns whether the plan of a program finds an output of a payload where exactly its bytes may be put, and nothing
/// where one byte fewer may.
fn is_limited(
    alloc: Global,
    program: &PlannedProgram,
    payload: &[u8],
    output: &[u8],
) -> Result<bool, AllocError> {
    let (mut scratch, mut found) = (Scratch::new(alloc), Vec::new(alloc));
    let fits = program.finds_output(payload, &mut scratch, &mut found, output.len())
        && found.as_slice() == output;
    let Some(fewer) = output.len().checked_sub(1) else {
        return Ok(fits);
    };
    let passes = program.finds_output(payload, &mut scratch, &mut found, fewer);
    // (a plan that found nothing finds the next payload)
    let again = program.finds_output(payload, &mut scratch, &mut found, MOST_OUTPUT);
    Ok(fits && !passes && again && found.as_slice() == output)
}

/// Returns for how many of the rows above, from the first on, the limit of an output holds to the byte.
fn rows_limited(alloc: Global) -> Result<usize, AllocError> {
    for (number, row) in ROWS.iter().enumerate() {
        let Planned::Output(output) = row.planned else {
            continue;
        };
        let program = planned_program(alloc, row.writer, row.reader)?;
        if !is_limited(alloc, &program, row.payload, output)? {
            return Ok(number);
        }
    }
    Ok(ROWS.len())
}

/// The number of records of a long message, as it is encoded.
const MANY: &[u8] = &[0xc0, 0xb8, 0x02];

/// Returns an array of 20,000 items in one block, each of two parts.
fn many_of(alloc: Global, first: &[u8], second: &[u8]) -> Result<Vec<u8>, AllocError> {
    let mut array = Vec::from_slice(alloc, MANY)?;
    for _ in 0..20_000 {
        array.extend_from_slice(first)?;
        array.extend_from_slice(second)?;
    }
    array.push(0)?;
    Ok(array)
}

/// Returns the program, with its plan, from arrays of `RECORD` to arrays of `EVOLVED`.
fn program_of_arrays(alloc: Global) -> Result<PlannedProgram, AllocError> {
    let writer = format!(in alloc; "{{\"type\":\"array\",\"items\":{RECORD}}}")?;
    let reader = format!(in alloc; "{{\"type\":\"array\",\"items\":{EVOLVED}}}")?;
    planned_program(alloc, writer.as_str(), reader.as_str())
}

/// Returns whether one slice of just its rows takes a message whole, by its program's plan: the arena is then the
/// output, whose fields are in the reader's order. One row at a time, they would be there in the writer's.
fn takes_whole(
    alloc: Global,
    program: &PlannedProgram,
    payload: &[u8],
    wanted: &[u8],
) -> Result<bool, AllocError> {
    let rows = rows_alone(alloc, program, payload)?;
    let mut run = Run::new(alloc, program);
    let is_pushed = pushed(&mut run, payload).is_ok();
    run.close();
    let is_taken = run.slice(&[], rows).rows == rows;
    Ok(is_pushed && is_taken && run.machine().arena() == wanted)
}

/// Returns whether a message of 2 MB, of records with this text, is taken whole.
fn is_taken_whole(alloc: Global, text: &[u8]) -> Result<bool, AllocError> {
    let payload = many_of(alloc, &[0x36], text)?;
    let wanted = many_of(alloc, text, &[0x0e, 0x36])?;
    let program = program_of_arrays(alloc)?;
    Ok(payload.len() > 2_000_000 && takes_whole(alloc, &program, &payload, &wanted)?)
}

/// Returns whether such a message of texts of 100 letters is taken whole.
fn letters_are_taken_whole(alloc: Global) -> Result<bool, AllocError> {
    match letters(alloc, 100)? {
        Some(text) => is_taken_whole(alloc, &text),
        None => Ok(false),
    }
}

#[test]
fn plans_put_no_byte_past_a_limit(rt: HostRuntime) -> Result<(), Fail> {
    let right = rows_limited(rt.alloc())?;
    assert_eq!(rt; right, ROWS.len());
    Ok(())
}

#[test]
fn runs_take_a_message_of_2_mb_by_their_plan(rt: HostRuntime) -> Result<(), Fail> {
    assert!(rt; letters_are_taken_whole(rt.alloc())?);
    Ok(())
}
