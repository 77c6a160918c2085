//! Worked encodings of the Avro 1.11 Specification ("Binary Encoding"), and each fault from outside data.

ghost use Rattle.std.specs.Prelude.{◌≤◌, length};

use crate::asked::assert_rows;
use crate::lines::{bytes_of, debug_line, words_line};
use avro_bytes::{
    Blob, BlockWalk, Bool, Fault, FixedBytes, Int, Long, MalformedKind, Meter, Position, Text,
    WireForm, enter_blocks, enter_item, enter_record, long_len, put_long, read_and_skip,
    read_boolean, read_int, read_length, read_long, read_position,
};
use std::alloc::{AllocError, Global};
use std::fmt::Debug;

/// Numbers, the length that is reported for each, and the bytes that it is put as.
const PUT: &str = "put 0 -> 1 00
put -1 -> 1 01
put 1 -> 1 02
put -2 -> 1 03
put 2 -> 1 04
put -64 -> 1 7f
put 64 -> 2 8001
put 27 -> 1 36
put 9223372036854775807 -> 10 feffffffffffffffff01
put -9223372036854775808 -> 10 ffffffffffffffffff01";

/// A form that is read and skipped, or a call that reads, the offset where it begins, how many units are before it,
/// and the bytes. Then the value, the offset after it and the meter there, or the first fault.
const NUMBERS: &str = "long 0 0 00 -> Ok((0, 1, Meter { depth: 0, units: 0 }))
long 0 0 01 -> Ok((-1, 1, Meter { depth: 0, units: 0 }))
long 0 0 02 -> Ok((1, 1, Meter { depth: 0, units: 0 }))
long 0 0 03 -> Ok((-2, 1, Meter { depth: 0, units: 0 }))
long 0 0 04 -> Ok((2, 1, Meter { depth: 0, units: 0 }))
long 0 0 7f -> Ok((-64, 1, Meter { depth: 0, units: 0 }))
long 0 0 8001 -> Ok((64, 2, Meter { depth: 0, units: 0 }))
long 0 0 36 -> Ok((27, 1, Meter { depth: 0, units: 0 }))
long 0 0 feffffffffffffffff01 -> Ok((9223372036854775807, 10, Meter { depth: 0, units: 0 }))
long 0 0 ffffffffffffffffff01 -> Ok((-9223372036854775808, 10, Meter { depth: 0, units: 0 }))
int 0 0 8000 -> Ok((0, 2, Meter { depth: 0, units: 0 }))
int 0 0 ffffffff0f -> Ok((-2147483648, 5, Meter { depth: 0, units: 0 }))
int 0 0 828000 -> Ok((1, 3, Meter { depth: 0, units: 0 }))
read_int 1 0 ff8100 -> Ok((-1, 3, Meter { depth: 0, units: 0 }))
long 1 0 ff36 -> Ok((27, 2, Meter { depth: 0, units: 0 }))
read_long 1 0 ff36 -> Ok((27, 2, Meter { depth: 0, units: 0 }))
int 0 0 ffffffff1f -> Err(Malformed { kind: BadNumber, at: 0 })
long 0 0 ffffffffffffffffff02 -> Err(Malformed { kind: BadNumber, at: 0 })
int 0 0 80808080 -> Err(Need)
long 0 0 - -> Err(Need)
long 0 0 80 -> Err(Need)
read_length 1 0 ff04 -> Ok((2, 2, Meter { depth: 0, units: 0 }))
read_length 1 0 ff01 -> Err(Malformed { kind: BadLength, at: 1 })
read_length 0 0 80 -> Err(Need)
branch_of_2 0 0 02 -> Ok((1, 1, Meter { depth: 0, units: 0 }))
branch_of_2 0 0 04 -> Err(Malformed { kind: BadBranch, at: 0 })
branch_of_2 0 0 01 -> Err(Malformed { kind: BadBranch, at: 0 })
read_symbol_of_1 0 0 02 -> Err(Malformed { kind: BadEnum, at: 0 })
read_boolean 0 0 01 -> Ok((true, 1, Meter { depth: 0, units: 0 }))
boolean 0 0 00 -> Ok((false, 1, Meter { depth: 0, units: 0 }))
boolean 0 0 01 -> Ok((true, 1, Meter { depth: 0, units: 0 }))
boolean 0 0 02 -> Err(Malformed { kind: BadBoolean, at: 0 })
boolean 0 0 8000 -> Err(Malformed { kind: BadBoolean, at: 0 })
boolean 0 0 - -> Err(Need)";

/// As `NUMBERS`, but of texts, whose lengths are at most 16,777,216, of bytes and of fixed ones.
const CONTENTS: &str = r#"text 0 0 06666f6f00 -> Ok(("foo", 4, Meter { depth: 0, units: 0 }))
text 0 0 02ff -> Err(Malformed { kind: BadText, at: 1 })
text 0 0 04c328 -> Err(Malformed { kind: BadText, at: 1 })
text 0 0 04ff -> Err(Need)
text 0 0 01 -> Err(Malformed { kind: BadLength, at: 0 })
text 0 0 82808010 -> Err(Malformed { kind: BadLength, at: 0 })
text 0 0 80 -> Err(Need)
text 0 0 - -> Err(Need)
bytes 0 0 04010200 -> Ok(([1, 2], 3, Meter { depth: 0, units: 0 }))
bytes 0 0 02ff -> Ok(([255], 2, Meter { depth: 0, units: 0 }))
bytes 0 0 040102 -> Ok(([1, 2], 3, Meter { depth: 0, units: 0 }))
bytes 0 0 00 -> Ok(([], 1, Meter { depth: 0, units: 0 }))
bytes 0 0 0401 -> Err(Need)
bytes 0 0 01 -> Err(Malformed { kind: BadLength, at: 0 })
bytes 0 0 - -> Err(Need)
fixed_of_3 0 0 01020304 -> Ok(([1, 2, 3], 3, Meter { depth: 0, units: 0 }))
fixed_of_3 0 0 010203 -> Ok(([1, 2, 3], 3, Meter { depth: 0, units: 0 }))
fixed_of_3 0 0 0102 -> Err(Need)"#;

/// What is entered, where, and after how many units and levels, of which there are 1,048,576 and 1,000. Then the meter
/// inside it, or what is too deep or too many.
const METERS: &str = "record 5 0 0 -> Ok(Meter { depth: 1, units: 1 })
record 5 1048576 1000 -> Err(Malformed { kind: TooDeep, at: 5 })
record 5 1048576 0 -> Err(Malformed { kind: TooMany, at: 5 })
blocks 5 1048575 999 -> Ok(Meter { depth: 1000, units: 1048575 })
item 5 1048575 999 -> Ok(Meter { depth: 999, units: 1048576 })
blocks 5 1048575 1000 -> Err(Malformed { kind: TooDeep, at: 5 })
item 5 1048576 999 -> Err(Malformed { kind: TooMany, at: 5 })
blocks 5 0 0 -> Ok(Meter { depth: 1, units: 0 })
item 5 0 0 -> Ok(Meter { depth: 0, units: 1 })
begin 5 0 1000 -> malformed TooDeep at 5";

/// Walks over blocks: where each begins, after how many units and levels, and where it goes on, inside one level and
/// after how many units, and the bytes. Then the next item or the end and the meter there, or the first fault. A walk
/// that reports its parts goes on from them.
const WALKS: &str = "begin 0 0 0 -> Meter { depth: 1, units: 0 }
next 0 0 023600 -> Ok((true, 1, Meter { depth: 1, units: 1 }))
next 2 1 023600 -> Ok((false, 3, Meter { depth: 0, units: 1 }))
begin 0 0 0 -> Meter { depth: 1, units: 0 }
next 0 0 01023600 -> Ok((true, 2, Meter { depth: 1, units: 1 }))
next 3 1 01023600 -> Ok((false, 4, Meter { depth: 0, units: 1 }))
begin 0 0 0 -> Meter { depth: 1, units: 0 }
next 0 0 00 -> Ok((false, 1, Meter { depth: 0, units: 0 }))
begin 0 0 0 -> Meter { depth: 1, units: 0 }
next 0 0 0304363600 -> Ok((true, 2, Meter { depth: 1, units: 1 }))
parts -> (1, 0, 2, Some(2))
next 3 1 0304363600 -> Ok((true, 3, Meter { depth: 1, units: 2 }))
next 4 2 0304363600 -> Ok((false, 5, Meter { depth: 0, units: 2 }))
begin 0 0 0 -> Meter { depth: 1, units: 0 }
next 0 0 0436360304363600 -> Ok((true, 1, Meter { depth: 1, units: 1 }))
next 2 1 0436360304363600 -> Ok((true, 2, Meter { depth: 1, units: 2 }))
next 3 2 0436360304363600 -> Ok((true, 5, Meter { depth: 1, units: 3 }))
next 6 3 0436360304363600 -> Ok((true, 6, Meter { depth: 1, units: 4 }))
next 7 4 0436360304363600 -> Ok((false, 8, Meter { depth: 0, units: 4 }))
begin 0 0 0 -> Meter { depth: 1, units: 0 }
next 0 0 01043600 -> Ok((true, 2, Meter { depth: 1, units: 1 }))
next 3 1 01043600 -> Err(Malformed { kind: BadBlock, at: 0 })
next 3 1 01043600 -> Err(Malformed { kind: BadBlock, at: 0 })
begin 0 0 0 -> Meter { depth: 1, units: 0 }
next 0 0 0180 -> Err(Need)
next 0 0 - -> Err(Need)
next 0 1048576 0236 -> Err(Malformed { kind: TooMany, at: 1 })";

/// Returns what is read of a form, again where memory ran out the first time, and what is skipped, in words.
pub(crate) fn both<F: WireForm>(
    alloc: Global,
    form: &F,
    bytes: &[u8],
    at: usize,
    meter: Meter,
) -> Result<String, AllocError>
where
    F::Value: Debug + Drop,
    requires { at ≤ length bytes.now }
{
    let (mut read, skip) = read_and_skip(form, bytes, at, meter);
    if matches!(&read, Err(Fault::NoMemory)) {
        read = form.read(bytes, at, meter);
    }
    let as_read = match &read {
        Ok((_, to, after)) => Ok((*to, *after)),
        Err(fault) => Err(*fault),
    };
    if skip != as_read {
        return format!(in alloc; "skipped as {skip:?}");
    }
    debug_line(alloc, read)
}

/// Returns what a form or a call reads, in words.
fn read_line(
    alloc: Global,
    form: &str,
    bytes: &[u8],
    at: usize,
    meter: Meter,
) -> Result<String, AllocError>
    requires { at ≤ length bytes.now }
{
    let branch = Position {
        bad: MalformedKind::BadBranch,
        many: 2,
    };
    match form {
        "int" => both(alloc, &Int, bytes, at, meter),
        "long" => both(alloc, &Long, bytes, at, meter),
        "branch_of_2" => both(alloc, &branch, bytes, at, meter),
        "boolean" => both(alloc, &Bool, bytes, at, meter),
        "text" => both(alloc, &Text { alloc }, bytes, at, meter),
        "bytes" => both(alloc, &Blob { alloc }, bytes, at, meter),
        "fixed_of_3" => both(alloc, &FixedBytes { alloc, size: 3 }, bytes, at, meter),
        "read_int" => debug_line(alloc, read_int(bytes, at, meter)),
        "read_long" => debug_line(alloc, read_long(bytes, at, meter)),
        "read_length" => debug_line(alloc, read_length(bytes, at, meter)),
        "read_symbol_of_1" => debug_line(
            alloc,
            read_position(MalformedKind::BadEnum, 1, bytes, at, meter),
        ),
        "read_boolean" => debug_line(alloc, read_boolean(bytes, at, meter)),
        _ => words_line(alloc, "no such form"),
    }
}

/// Returns the length that is reported for a number, and what it is put as.
fn put_line(alloc: Global, n: i64) -> Result<String, AllocError> {
    let mut out = Vec::new(alloc);
    put_long(&mut out, n)?;
    let digits = hex::encode(alloc, &out)?;
    format!(in alloc; "{} {digits}", long_len(n))
}

/// Returns the meter inside the blocks over which a walk begins, or the fault in words.
fn begun_line(
    alloc: Global,
    walk: &mut BlockWalk,
    at: usize,
    meter: Meter,
) -> Result<String, AllocError> {
    match BlockWalk::begin(at, meter) {
        Ok((new, inside)) => {
            *walk = new;
            debug_line(alloc, inside)
        }
        Err(fault) => format!(in alloc; "{fault}"),
    }
}

/// Returns the parts of a walk: how many items are left, the offsets of the count and of the items, and the size. The
/// walk goes on from them.
fn parts(walk: &mut BlockWalk) -> (u64, usize, usize, Option<i64>) {
    let (left, count_at) = (walk.left(), walk.count_at());
    let (items_at, size) = (walk.items_at(), walk.size());
    *walk = BlockWalk::walk_of(left, count_at, items_at, size);
    (left, count_at, items_at, size)
}

/// Parses a number of a row.
fn number(word: &str) -> u32 {
    word.parse::<u32>().unwrap_or(u32::MAX)
}

/// Returns what is read at an offset of bytes, or where a walk goes on, after the given number of units, in words.
fn bytes_line(
    alloc: Global,
    walk: &mut BlockWalk,
    call: &str,
    at: usize,
    units: u32,
    digits: &str,
) -> Result<String, AllocError> {
    let bytes = bytes_of(alloc, digits)?;
    let at = at.min(bytes.len());
    match call {
        "next" => debug_line(alloc, walk.next(&bytes, at, Meter { depth: 1, units })),
        _ => read_line(alloc, call, &bytes, at, Meter { depth: 0, units }),
    }
}

/// Returns what the call of a row answers, in words.
pub(crate) fn call_line(
    alloc: Global,
    walk: &mut BlockWalk,
    row: &str,
) -> Result<String, AllocError> {
    let (call, rest) = row.split_once(' ').unwrap_or((row, ""));
    let (first, rest) = rest.split_once(' ').unwrap_or((rest, ""));
    let (units, last) = rest.split_once(' ').unwrap_or((rest, ""));
    let (at, units) = (number(first) as usize, number(units));
    let meter = Meter {
        depth: number(last),
        units,
    };
    match call {
        "put" => put_line(alloc, first.parse::<i64>().unwrap_or(0)),
        "record" => debug_line(alloc, enter_record(meter, at)),
        "item" => debug_line(alloc, enter_item(meter, at)),
        "blocks" => debug_line(alloc, enter_blocks(meter, at)),
        "begin" => begun_line(alloc, walk, at, meter),
        "parts" => debug_line(alloc, parts(walk)),
        _ => bytes_line(alloc, walk, call, at, units, last),
    }
}

#[test]
fn forms_are_read_and_skipped(rt: HostRuntime) -> Result<(), AllocError> {
    assert_rows(&rt, None, PUT)?;
    assert_rows(&rt, None, NUMBERS)?;
    assert_rows(&rt, None, CONTENTS)
}

#[test]
fn blocks_are_walked_within_the_limits(rt: HostRuntime) -> Result<(), AllocError> {
    assert_rows(&rt, None, METERS)?;
    assert_rows(&rt, None, WALKS)
}
