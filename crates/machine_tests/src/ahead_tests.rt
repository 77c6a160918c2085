//! What the plan of a program finds of a whole payload. No contract says that it finds anything, so usual
//! records are tried here.

use crate::programs::push_hex;
use crate::rows::assert_questions;
use avro_bytes::MOST_OUTPUT;
use machine_plan::{PlannedProgram, Scratch};
use std::alloc::{AllocError, Global};
use std::test::Fail;

/// Slots are found in any order, where the first value is skipped, and one has a default. What is skipped may be an
/// array, before the first slot too, or a record that a routine skips. Nothing is found of a payload that is cut.
const ROWS: &str = "\
ahead 1|record|3606666f6f|3606666f6f;
ahead 1|record|3606666f|none;
ahead 2|const 0 046575;0 CALL 2;1 HALT;2 RECORD 3;3 SLONG;4 SLOT 2;5 TEXT;6 SLOT 0;7 INT;8 SBOOL;9 SLOT 1;10 PUT 0;\
11 ENDREC;12 RET|3606666f6f0a01|0a04657506666f6f;0a04657506666f6f;
ahead 2|const 0 02;0 CALL 2;1 HALT;2 RECORD 2;3 SLOT 1;4 PUT 0;5 TEXT;6 SLOT 0;7 LONG;8 ENDREC;9 RET|06666f6f36|\
360206666f6f;360206666f6f;
ahead 2|0 CALL 2;1 HALT;2 RECORD 1;3 SBLOCKS;4 SNEXT 7;5 SLONG;6 JUMP 4;7 SLOT 0;8 BOOL;9 CALL 12;10 ENDREC;11 RET;\
12 ENTER;13 STEXT;14 LEAVE;15 RET|040204000106666f6f|01;01;
";

/// Appends what a program's plan finds of a payload, asked `times` times in the same room.
pub(crate) fn push_found(
    alloc: Global,
    output: &mut String,
    program: &PlannedProgram,
    payload: &[u8],
    times: u64,
) -> Result<(), AllocError> {
    let (mut scratch, mut found) = (Scratch::new(alloc), Vec::new(alloc));
    'times: for _time in 0..times {
        if program.finds_output(payload, &mut scratch, &mut found, MOST_OUTPUT) {
            push_hex(alloc, output, found.as_slice())?;
        } else {
            output.push_str("none")?;
        }
        output.push_str("\n")?;
    }
    Ok(())
}

#[test]
fn records_are_found_ahead(rt: HostRuntime) -> Result<(), Fail> {
    assert_questions(&rt, ROWS)
}
