//! Worked rows: what programs answer, and after how many rows. Each line of a table is a program, its
//! input and the answer.

use crate::rows::assert_rows;
use std::test::Fail;

const ROWS: &str = "\
record|3606666f6f|done 3606666f6f count 10
swapped|3606666f6f|done 06666f6f36 count 10
const 0 0e;0 CALL 2;1 HALT;2 RECORD 2;3 SLONG;4 SLOT 0;5 TEXT;6 SLOT 1;7 PUT 0;8 ENDREC;9 RET|3606666f6f|\
done 06666f6f0e count 11
record||malformed Truncated at 0 count 4
record|360666|malformed Truncated at 3 count 7
record|3606666f6f00|malformed Trailing at 5 count 10
const 0 00;const 1 02;jumps 0 7 9;0 CALL 2;1 HALT;2 RECORD 2;3 SLOT 0;4 LONG;5 SLOT 1;6 BRANCH 0;\
7 PUT 0;8 JUMP 11;9 PUT 1;10 CALL 2;11 ENDREC;12 RET|02020400|done 02020400 count 20
array|010206023600|done 04063600 count 9
array|01040600|malformed BadBlock at 0 count 5
array|00|done 00 count 3
const 0 61;0 BLOCKS;1 PUT 0;2 NEXT 3;3 HALT|00|done 00 count 4
const 0 61;0 BLOCKS;1 PUT 0;2 NEXT 5;3 LONG;4 JUMP 2;5 HALT|020200|done 02610200 count 7
const 0 61;0 PUT 0;1 BLOCKS;2 PUT 0;3 BLOCKS;4 PUT 0;5 NEXT 6;6 PUT 0;7 NEXT 8;8 PUT 0;9 HALT|0000|done 610061 count 10
0 LONG;1 HALT|8000|done 00 count 2
0 INT;1 HALT|ffffffff1f|malformed BadNumber at 0 count 1
0 BOOL;1 HALT|02|malformed BadBoolean at 0 count 1
map 0 0 0 1;0 ENUM 0;1 HALT|02|done 00 count 2
map 0 0 !0 1;miss 0 NoSymbol 0 0;0 ENUM 0;1 HALT|02|mismatch NoSymbol 0 0 count 2
map 0 0;0 ENUM 0;1 HALT|02|malformed BadEnum at 0 count 1
jumps 0 1;0 BRANCH 0;1 HALT|02|malformed BadBranch at 0 count 1
0 SBLOCKS;1 SNEXT 4;2 SBYTES;3 JUMP 1;4 HALT|0202ff00|done - count 7
";

const TRAPS: &str = "\
0 ENDREC||trap NoFrame count 1
0 LEAVE||trap NoFrame count 1
0 NEXT 0||trap NoFrame count 1
0 SNEXT 0||trap NoFrame count 1
0 SLOT 0||trap NoFrame count 1
0 RECORD 1;1 SLOT 1||trap BadSlot count 2
0 RECORD 1;1 LONG||trap NoBuffer count 2
0 ENTER;1 TEXT||trap NoBuffer count 2
0 ENTER;1 RECORD 0;2 ENDREC||trap NoBuffer count 3
0 CALL 0||trap TooManyCalls count 1025
0 RET||trap NoReturn count 1
0 BLOCKS;1 HALT||trap OpenAtHalt count 2
0 CALL 1;1 HALT||trap OpenAtHalt count 2
0 JUMP 1;1 ENTER;2 LEAVE||trap OffEnd count 4
";

const LIMITS: &str = "\
0 ENTER;1 JUMP 0||malformed TooDeep at 0 count 2001
0 BLOCKS;1 JUMP 0||malformed TooDeep at 0 count 2001
0 RECORD 0;1 ENDREC;2 JUMP 0||malformed TooMany at 0 count 3145729
";

#[test]
fn worked_rows_come_out(rt: HostRuntime) -> Result<(), Fail> {
    assert_rows(&rt, "end 1000000 1000000000", ROWS)?;
    assert_rows(&rt, "end 1 1000000000", ROWS)
}

#[test]
fn slices_change_nothing(rt: HostRuntime) -> Result<(), Fail> {
    assert_rows(&rt, "end 1 1", ROWS)?;
    assert_rows(&rt, "end 3 2", ROWS)
}

#[test]
fn traps_are_told(rt: HostRuntime) -> Result<(), Fail> {
    assert_rows(&rt, "end 1 1000000000", TRAPS)
}

#[test]
fn depth_and_units_have_limits(rt: HostRuntime) -> Result<(), Fail> {
    assert_rows(&rt, "end 1 1000000000", LIMITS)
}
