//! Which parts are a program, and the first thing that keeps others from being one.

use crate::again::again;
use crate::forms::rows::{Tried, assert_rows, is_answer};
use avro_bytes::{Mismatch, MismatchKind};
use isa::{Entry, Instr, Lists, Parts, Program};
use std::alloc::{AllocError, Global};
use std::test::Fail;

/// A thing that parts are made of: items, how many times a list has them (not for a map), and how many times the list
/// is there (not for a code).
enum Thing {
    Code(&'static [Instr], usize),
    Constant(&'static [u8], usize, usize),
    Map(&'static [Entry], usize),
    Jumps(&'static [u32], usize, usize),
    Miss(Mismatch),
}

/// Names of things and what they are as a program: its listing, or the first thing that keeps them from being one.
const ROWS: &str = "\
list zero two ways|@const 0 00;const 1 02;jumps 0 7 9;0 CALL 2;1 HALT;2 RECORD 2;3 SLOT 0;4 LONG;\
5 SLOT 1;6 BRANCH 0;7 PUT 0;8 JUMP 11;9 PUT 1;10 CALL 2;11 ENDREC;12 RET;
enum symbols none symbol|@map 0 10 !0;map 1;miss 0 NoSymbol 3 0;0 ENUM 0;1 SFIXED 16;2 HALT;
greatest bytes map jumps node|@const 0 0204;map 0 4095 !0;jumps 0 0 1;miss 0 NoMatch 1023 0;\
0 BYTESTEXT 0;1 FIXED 1048576;2 SFIXED 1048576;3 ENUM 0;4 SENUM 4096;5 PUT 0;6 RECORD 1024;7 SLOT 1023;8 NEXT 10;\
9 SNEXT 12;10 BRANCH 0;11 MISS 0;12 TEXT;13 JUMP 13;
jump halt bytes map jumps node far-node far-jumps far-map|entry 1 of map 1 is out of range
jump halt bytes map jumps node far-node far-jumps|address 2 of jump table 1 is out of range
jump halt bytes map jumps node far-node|miss 1 is out of range
jump halt bytes map jumps node|the operand of instruction 0 is out of range
bytes map jumps node|there is no instruction
jump bytes empty places-1 jumps node|constant 1 is empty
jump bytes empty places-65537 jumps node|a limit is passed
";

/// Rows at the limits.
const LIMITS: &str = "\
halts zeros-1048576 places-65536 zeros-4096 node|@const 0 {1048576:00};{65536:map # 0;}\
jumps 0{4096: 0};jumps 1{4096: 0};miss 0 NoMatch 1023 0;{262144:# HALT;}
halts halt bytes map jumps node|a limit is passed
halt zeros-524289 map jumps node|a limit is passed
halt bytes map zeros-4097 node|a limit is passed
";

/// The code of a list of longs, by a union of null and the list itself.
const LIST: [Instr; 13] = [
    Instr::Call(2),
    Instr::Halt,
    Instr::Record(2),
    Instr::Slot(0),
    Instr::Long,
    Instr::Slot(1),
    Instr::Branch(0),
    Instr::Put(0),
    Instr::Jump(11),
    Instr::Put(1),
    Instr::Call(2),
    Instr::EndRecord,
    Instr::Return,
];

/// Operands that are the greatest of their ranges.
const GREATEST: [Instr; 14] = [
    Instr::BytesText(0),
    Instr::Fixed(1_048_576),
    Instr::SkipFixed(1_048_576),
    Instr::Enum(0),
    Instr::SkipEnum(4_096),
    Instr::Put(0),
    Instr::Record(1_024),
    Instr::Slot(1_023),
    Instr::Next(10),
    Instr::SkipNext(12),
    Instr::Branch(0),
    Instr::Miss(0),
    Instr::Text,
    Instr::Jump(13),
];

/// Returns the thing that a row names.
fn named(name: &str) -> Thing {
    match name {
        "list" => Thing::Code(&LIST, 1),
        "enum" => Thing::Code(&[Instr::Enum(0), Instr::SkipFixed(16), Instr::Halt], 1),
        "greatest" => Thing::Code(&GREATEST, 1),
        "jump" => Thing::Code(&[Instr::Jump(7)], 1),
        "halt" => Thing::Code(&[Instr::Halt], 1),
        "halts" => Thing::Code(&[Instr::Halt], 262_144),
        "zero" => Thing::Constant(&[0], 1, 1),
        "two" => Thing::Constant(&[2], 1, 1),
        "bytes" => Thing::Constant(&[2, 4], 1, 1),
        "zeros-1048576" => Thing::Constant(&[0], 1_048_576, 1),
        "zeros-524289" => Thing::Constant(&[0], 524_289, 2),
        "symbols" => Thing::Map(&[Entry::Position(10), Entry::Miss(0)], 1),
        "none" => Thing::Map(&[], 1),
        "map" => Thing::Map(&[Entry::Position(4_095), Entry::Miss(0)], 1),
        "far-map" => Thing::Map(&[Entry::Position(0), Entry::Position(4_096)], 1),
        "places-1" => Thing::Map(&[Entry::Position(0)], 1),
        "places-65536" => Thing::Map(&[Entry::Position(0)], 65_536),
        "places-65537" => Thing::Map(&[Entry::Position(0)], 65_537),
        "ways" => Thing::Jumps(&[7, 9], 1, 1),
        "jumps" => Thing::Jumps(&[0, 1], 1, 1),
        "far-jumps" => Thing::Jumps(&[1, 0, 2], 1, 1),
        "zeros-4096" => Thing::Jumps(&[0], 4_096, 2),
        "zeros-4097" => Thing::Jumps(&[0], 4_097, 1),
        "node" => Thing::Miss(MISS),
        "far-node" => Thing::Miss(FAR_MISS),
        "symbol" => Thing::Miss(NO_SYMBOL),
        _ => Thing::Constant(&[], 1, 1),
    }
}

/// A node of the writer, which matches none of the reader's.
const MISS: Mismatch = Mismatch {
    kind: MismatchKind::NoMatch,
    writer_node: 1_023,
    reader_node: 0,
};

/// Such a mismatch with a node that the reader cannot have.
const FAR_MISS: Mismatch = Mismatch {
    kind: MismatchKind::NoMatch,
    writer_node: 1_023,
    reader_node: 1_024,
};

/// A symbol that has no place.
const NO_SYMBOL: Mismatch = Mismatch {
    kind: MismatchKind::NoSymbol,
    writer_node: 3,
    reader_node: 0,
};

/// Adds the first list once more, again where memory ran out the first time.
fn push_first<T: Copy>(lists: &mut Lists<T>) -> Result<(), AllocError> {
    if lists.len() == 0 {
        return Ok(());
    }
    again!(lists.push_again(0), AllocError)
}

/// Returns these items, repeated `times` times.
fn repeated<T: Copy>(alloc: Global, items: &[T], times: usize) -> Result<Vec<T>, AllocError> {
    let mut all = Vec::new(alloc);
    for _time in 0..times {
        all.extend_from_slice(items)?;
    }
    Ok(all)
}

/// Adds a list, and then the first one until `times` lists were added: where there was none before, they
/// are all this list.
fn push_times<T: Copy>(lists: &mut Lists<T>, list: &[T], times: usize) -> Result<(), AllocError> {
    again!(lists.push(list), AllocError)?;
    for _time in 1..times {
        push_first(lists)?;
    }
    Ok(())
}

/// Adds a list of `items` repeated `long` times, `times` times.
fn push<T: Copy>(
    alloc: Global,
    lists: &mut Lists<T>,
    items: &[T],
    long: usize,
    times: usize,
) -> Result<(), AllocError> {
    let list = repeated(alloc, items, long)?;
    push_times(lists, &list, times)
}

/// Adds a thing to parts.
fn push_thing(alloc: Global, parts: &mut Parts, thing: Thing) -> Result<(), AllocError> {
    match thing {
        Thing::Code(items, long) => {
            let code = repeated(alloc, items, long)?;
            parts.code.extend_from_slice(&code)
        }
        Thing::Constant(items, long, times) => {
            push(alloc, &mut parts.constants, items, long, times)
        }
        Thing::Map(items, times) => push(alloc, &mut parts.maps, items, 1, times),
        Thing::Jumps(items, long, times) => push(alloc, &mut parts.jumps, items, long, times),
        Thing::Miss(miss) => Ok(parts.misses.push(miss)?),
    }
}

/// Adds a code and things to parts.
fn push_things(
    alloc: Global,
    parts: &mut Parts,
    code: &[Instr],
    names: &str,
) -> Result<(), AllocError> {
    parts.code.extend_from_slice(code)?;
    for name in names.split(' ') {
        push_thing(alloc, parts, named(name))?;
    }
    Ok(())
}

/// Returns the parts that a code and things make.
fn parts_of(alloc: Global, code: &[Instr], names: &str) -> Result<Parts, AllocError> {
    let mut parts = Parts {
        code: Vec::new(alloc),
        constants: Lists::new(alloc),
        maps: Lists::new(alloc),
        jumps: Lists::new(alloc),
        misses: Vec::new(alloc),
    };
    push_things(alloc, &mut parts, code, names)?;
    Ok(parts)
}

/// Returns whether this is what a code and things are as a program.
pub(crate) fn is_program_answer(
    alloc: Global,
    code: &[Instr],
    names: &str,
    want: &str,
) -> Result<bool, AllocError> {
    let parts = parts_of(alloc, code, names)?;
    is_answer(alloc, Program::new(parts), want)
}

#[test]
fn parts_are_a_program_or_their_first_fault_is_told(rt: HostRuntime) -> Result<(), Fail> {
    assert_rows(&rt, Tried::Parts, ROWS)
}

#[test]
fn programs_have_limits(rt: HostRuntime) -> Result<(), Fail> {
    assert_rows(&rt, Tried::Parts, LIMITS)
}

#[test]
fn operands_out_of_range_are_told_by_their_address(rt: HostRuntime) -> Result<(), Fail> {
    let cases = [
        Instr::BytesText(1),
        Instr::Fixed(1_048_577),
        Instr::SkipFixed(1_048_577),
        Instr::Enum(1),
        Instr::SkipEnum(4_097),
        Instr::Put(1),
        Instr::Record(1_025),
        Instr::Slot(1_024),
        Instr::Next(2),
        Instr::SkipNext(2),
        Instr::Branch(1),
        Instr::Miss(1),
        Instr::Call(2),
        Instr::Jump(4_294_967_295),
    ];
    let want = "the operand of instruction 1 is out of range";
    for instr in cases {
        let is_so = is_program_answer(
            rt.alloc(),
            &[Instr::Return, instr],
            "bytes map jumps node",
            want,
        )?;
        assert!(rt; is_so, "{instr:?}");
    }
    Ok(())
}

/// Returns whether the list at a position is this one.
fn is_list<T: Copy + PartialEq>(lists: &Lists<T>, position: usize, list: &[T]) -> bool {
    lists.get(position) == Some(list)
}

/// Returns whether lists are two numbers, none, the first two again and one, and report the lengths that these have.
fn are_four(lists: &Lists<u8>) -> bool {
    lists.len() == 4
        && is_list(lists, 0, &[1, 2])
        && is_list(lists, 1, &[])
        && is_list(lists, 2, &[1, 2])
        && is_list(lists, 3, &[3])
        && lists.get(4).is_none()
        && lists.first_empty() == Some(1)
        && lists.total_is_within(5)
        && !lists.total_is_within(4)
        && lists.are_within(2)
        && !lists.are_within(1)
}

/// Adds the four lists of `are_four`.
fn push_four(lists: &mut Lists<u8>) -> Result<(), AllocError> {
    push_times(lists, &[1, 2], 1)?;
    push_times(lists, &[], 2)?;
    push_times(lists, &[3], 1)
}

#[test]
fn keeps_lists_and_shares_them(rt: HostRuntime) -> Result<(), Fail> {
    let mut lists = Lists::new(rt.alloc());
    push_four(&mut lists)?;
    assert!(rt; are_four(&lists));
    Ok(())
}

/// Returns whether a program shows a code of two instructions, and one thing of each kind.
fn is_shown(program: &Program, code: &[Instr]) -> bool {
    program.is_in_range();
    program.len() == 2
        && program.code() == code
        && program.instr(1) == Some(Instr::Halt)
        && program.instr(2).is_none()
        && is_list(program.constants(), 0, &[2, 4])
        && is_list(program.maps(), 0, &[Entry::Position(4_095), Entry::Miss(0)])
        && is_list(program.jumps(), 0, &[0, 1])
        && program.misses() == [MISS].as_slice()
}

/// Returns whether parts are a program that shows a code of two instructions, and one thing of each kind.
fn are_shown(parts: Parts, code: &[Instr]) -> bool {
    match Program::new(parts) {
        Ok(program) => is_shown(&program, code),
        Err(_) => false,
    }
}

#[test]
fn a_program_shows_its_parts(rt: HostRuntime) -> Result<(), Fail> {
    let code = [Instr::Call(1), Instr::Halt];
    let parts = parts_of(rt.alloc(), &code, "bytes map jumps node")?;
    assert!(rt; are_shown(parts, &code));
    Ok(())
}
