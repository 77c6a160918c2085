//! Tables of rows: a program, its input, and the answer, separated by bars.

use crate::asked::push_new;
use crate::programs::{input, program};
use crate::texts::{holds, push_text};
use machine_plan::PlannedProgram;
use std::alloc::Global;
use std::process::Abort;
use std::test::Fail;

/// Returns the lines of a program by its name in a row, or the row's text where that is the lines themselves.
fn lines_of(name: &str) -> &str {
    match name {
        "record" => "0 CALL 2;1 HALT;2 RECORD 2;3 SLOT 0;4 LONG;5 SLOT 1;6 TEXT;7 ENDREC;8 RET",
        "swapped" => "0 CALL 2;1 HALT;2 RECORD 2;3 SLOT 1;4 LONG;5 SLOT 0;6 TEXT;7 ENDREC;8 RET",
        "array" => "0 BLOCKS;1 NEXT 4;2 LONG;3 JUMP 1;4 HALT",
        "skipped" => "0 SBLOCKS;1 SNEXT 5;2 ENTER;3 LEAVE;4 JUMP 1;5 HALT",
        "missed" => "miss 0 NoSymbol 3 4;0 MISS 0;1 HALT",
        _ => name,
    }
}

/// Appends what a new machine answers with a program on an input.
fn push_on(
    alloc: Global,
    output: &mut String,
    question: &str,
    program: &PlannedProgram,
    hex: &str,
) -> Result<(), Fail> {
    let input = input(alloc, hex)?;
    Ok(push_new(alloc, output, program, &input, question)?)
}

/// Appends what a new machine answers with the program of these lines on an input.
fn push_told(
    alloc: Global,
    output: &mut String,
    question: &str,
    lines: &str,
    hex: &str,
) -> Result<(), Fail> {
    match program(alloc, lines) {
        Ok(program) => {
            let program = PlannedProgram::new(alloc, program);
            push_on(alloc, output, question, &program, hex)
        }
        Err(error) => Err(error.into()),
    }
}

/// Returns whether a row is true of a question.
fn is_true(alloc: Global, question: &str, row: &str) -> Result<bool, Fail> {
    let (lines, rest) = row.split_once('|').unwrap_or((row, ""));
    let (hex, answer) = rest.split_once('|').unwrap_or((rest, ""));
    let (mut found, mut want) = (String::new(alloc), String::new(alloc));
    push_text(&mut want, answer)?;
    push_told(alloc, &mut found, question, lines_of(lines), hex)?;
    Ok(found.as_str() == want.as_str())
}

/// Returns whether a row that begins with its question is true.
fn is_true_of_its_own(alloc: Global, row: &str) -> Result<bool, Fail> {
    let (question, rest) = row.split_once('|').unwrap_or((row, ""));
    is_true(alloc, question, rest)
}

/// Asserts that the rows are true, each of its own question.
pub(crate) fn assert_questions(rt: &(impl Abort + AllocGlobal), rows: &str) -> Result<(), Fail> {
    for row in rows.lines() {
        holds(rt, is_true_of_its_own(rt.alloc(), row)?, row);
    }
    Ok(())
}

/// Asserts that the rows are true of a question.
pub(crate) fn assert_rows(
    rt: &(impl Abort + AllocGlobal),
    question: &str,
    rows: &str,
) -> Result<(), Fail> {
    for row in rows.lines() {
        holds(rt, is_true(rt.alloc(), question, row)?, row);
    }
    Ok(())
}
