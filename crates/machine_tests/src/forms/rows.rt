//! Tables of rows: what is tried, a bar, and the answer.

use crate::again::again;
use crate::forms::image_tests::is_image_answer;
use crate::forms::listing_tests::is_listing_answer;
use crate::forms::program_tests::is_program_answer;
use crate::texts::{holds, push_text};
use assembler::disassemble;
use hex::FromHexError;
use isa::Program;
use std::alloc::{AllocError, Global};
use std::fmt::Display;
use std::process::Abort;
use std::test::Fail;

/// What the rows of a table try.
#[derive(Clone, Copy)]
pub(crate) enum Tried {
    Listing,
    Image,
    Parts,
}

/// Returns whether this is the listing of a program.
fn is_listing(alloc: Global, program: &Program, want: &str) -> Result<bool, AllocError> {
    let listing = again!(disassemble(alloc, program), AllocError)?;
    Ok(listing.as_str() == want)
}

/// Returns whether an error is shown as this text.
fn is_told<E: Display>(alloc: Global, error: &E, want: &str) -> Result<bool, AllocError> {
    let told = format!(in alloc; "{error}")?;
    Ok(told.as_str() == want)
}

/// Returns whether this is the answer for what was to be a program: its listing, or the error.
pub(crate) fn is_answer<E: Display + Drop>(
    alloc: Global,
    made: Result<Program, E>,
    want: &str,
) -> Result<bool, AllocError> {
    match made {
        Ok(program) => is_listing(alloc, &program, want),
        Err(error) => is_told(alloc, &error, want),
    }
}

/// Returns whether a row is true.
fn is_true(alloc: Global, tried: Tried, row: &str) -> Result<bool, FromHexError> {
    let (subject, answer) = row.split_once('|').unwrap_or((row, ""));
    let mut want = String::new(alloc);
    push_text(&mut want, answer)?;
    match tried {
        Tried::Listing => Ok(is_listing_answer(alloc, subject, &want)?),
        Tried::Image => is_image_answer(alloc, subject, &want),
        Tried::Parts => Ok(is_program_answer(alloc, &[], subject, &want)?),
    }
}

/// Asserts that the rows are true.
pub(crate) fn assert_rows(
    rt: &(impl Abort + AllocGlobal),
    tried: Tried,
    rows: &str,
) -> Result<(), Fail> {
    for row in rows.lines() {
        holds(rt, is_true(rt.alloc(), tried, row)?, row);
    }
    Ok(())
}
