//! Listings: which texts come back, and which fault is reported of the others.

use crate::again::again;
use crate::forms::rows::{Tried, assert_rows, is_answer};
use crate::texts::push_text;
use assembler::{AsmError, assemble};
use std::alloc::{AllocError, Global};
use std::test::Fail;

/// Those that come back are a halt, a list of longs, by a union of null and the list itself, and a thing of each kind.
const LISTINGS: &str = "\
|1 BadHeader
avro program 2;0 HALT;|1 BadHeader
avro program 1|1 BadLine
@0 HALT;|comes back
@const 0 00;const 1 02;jumps 0 7 9;0 CALL 2;1 HALT;2 RECORD 2;3 SLOT 0;4 LONG;5 SLOT 1;6 BRANCH 0;7 PUT 0;8 JUMP 11;\
9 PUT 1;10 CALL 2;11 ENDREC;12 RET;|comes back
@const 0 0a;map 0 10 !0;map 1;jumps 0 0 2;jumps 1;miss 0 NoSymbol 3 0;0 ENUM 0;1 SFIXED 16;2 HALT;|comes back
@const 0 0A;|2 BadLine
@const 0  00;0 HALT;|2 BadLine
@const 0 ;0 HALT;|2 BadLine
@const 00 00;0 HALT;|2 BadLine
@map 0 01;0 HALT;|2 BadLine
@map 0 !;0 HALT;|2 BadLine
@map 0 ;0 HALT;|2 BadLine
@map 0 1;const 0 00;0 HALT;|3 BadLine
@miss 0 NoWord 1 1;0 HALT;|2 BadLine
@miss 0 NoMatch 1;0 HALT;|2 BadLine
@0 HALT 1;|2 BadLine
@0 JUMP;|2 BadLine
@0 HALT|2 BadLine
@0 HALT;;|3 BadLine
@0 HALT;const 0 00;|3 BadLine
@const 1 00;0 HALT;|2 BadIndex
@0 HALT;2 HALT;|3 BadIndex
@99999999999999999999999999 HALT;|2 BadIndex
@0 JUMP 1;|2 OutOfRange
@0 JUMP 99999999999999999999999999;|2 OutOfRange
@map 0 4095;map 1 4096;0 HALT;|3 OutOfRange
@jumps 0 1;0 HALT;|2 OutOfRange
@miss 0 NoMatch 0 1024;0 HALT;|2 OutOfRange
@0 JUMP 9;1 HALT;2  HALT;|4 BadLine
@0 JUMP 9;2 HALT;3  HALT;|3 BadIndex
@|2 NoCode
@const 0 00;map 0 5000;|4 NoCode
";

/// Texts at the limits. A number that is not the next one is reported before the limit.
const LIMITS: &str = "@map 0{4096: 1};0 HALT;|comes back
@map 0{4097: 1};|2 TooLarge
@map 1{4097: 1};|2 BadIndex
@const 0 {1048576:07};|3 NoCode
@const 0 {1048577:07};|2 TooLarge
@{262144:# JUMP #;}|comes back
@{262145:# JUMP #;}|262146 TooLarge
";

/// Returns whether this is the answer for a text: its fault, or that it comes back.
pub(crate) fn is_listing_answer(
    alloc: Global,
    lines: &str,
    want: &str,
) -> Result<bool, AllocError> {
    let mut text = String::new(alloc);
    push_text(&mut text, lines)?;
    let want = if want == "comes back" { &text } else { want };
    is_answer(
        alloc,
        again!(assemble(alloc, text.as_bytes()), AsmError::NoMemory),
        want,
    )
}

#[test]
fn texts_come_back_or_a_fault_is_told(rt: HostRuntime) -> Result<(), Fail> {
    assert_rows(&rt, Tried::Listing, LISTINGS)
}

#[test]
fn listings_have_limits(rt: HostRuntime) -> Result<(), Fail> {
    assert_rows(&rt, Tried::Listing, LIMITS)
}

#[test]
fn lines_that_are_no_utf_8_are_bad(rt: HostRuntime) -> Result<(), Fail> {
    let made = assemble(rt.alloc(), b"avro program 1\n0 HALT \xff\n");
    assert!(rt; is_answer(rt.alloc(), made, "2 BadLine")?);
    Ok(())
}
