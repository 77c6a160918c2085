//! Plans of programs, and what they find of payloads: that they find anything is in no contract.

use crate::again::{compiled, pair_of, pushed};
use crate::plan_rows::{Planned, ROWS, Row};
use crate::plan_schemas::{
    EVOLVED, HELD, LIST, LIST_OF_PAIRS, LONGS, RECORD, STRING_ALONE, TREE, TURNED_LIST_OF_PAIRS,
    VALUE,
};
use crate::run_tests::NOWHERE;
use avro_bytes::{MOST_OUTPUT, put_long};
use machine::Run;
use machine_plan::{PlannedProgram, Scratch};
use std::alloc::{AllocError, Global};
use std::mem;
use std::test::Fail;

/// Returns the program of the schemas of two texts, with its plan.
pub(crate) fn planned_program(
    alloc: Global,
    writer: &str,
    reader: &str,
) -> Result<PlannedProgram, AllocError> {
    let Ok(pair) = pair_of(alloc, writer, reader) else {
        return Err(AllocError);
    };
    let Ok(program) = compiled(alloc, &pair) else {
        return Err(AllocError);
    };
    Ok(PlannedProgram::new(alloc, program))
}

/// Returns whether this comes of the plan of a program.
fn is_planned(alloc: Global, program: &PlannedProgram, payload: &[u8], planned: Planned) -> bool {
    if !program.has_plan() {
        return planned == Planned::NoPlan;
    }
    let (mut scratch, mut output) = (Scratch::new(alloc), Vec::new(alloc));
    let found = program.finds_output(payload, &mut scratch, &mut output, MOST_OUTPUT);
    match planned {
        Planned::NoPlan => false,
        Planned::Nothing => !found,
        Planned::Output(bytes) => found && output.as_slice() == bytes,
    }
}

/// Returns whether a row comes out.
fn is_row(alloc: Global, row: &Row) -> Result<bool, AllocError> {
    let program = planned_program(alloc, row.writer, row.reader)?;
    Ok(is_planned(alloc, &program, row.payload, row.planned))
}

/// Returns a list of `longs` longs.
fn list_of(alloc: Global, longs: usize) -> Result<Vec<u8>, AllocError> {
    let mut list = Vec::new(alloc);
    for _ in 1..longs {
        list.extend_from_slice(&[0x02, 0x02])?;
    }
    list.extend_from_slice(&[0x02, 0x00])?;
    Ok(list)
}

/// Returns a tree of `longs` longs, each but the first to the left of another.
fn left_tree_of(alloc: Global, longs: usize) -> Result<Vec<u8>, AllocError> {
    let mut tree = list_of(alloc, longs)?;
    for _ in 0..longs {
        tree.push(0x00)?;
    }
    Ok(tree)
}

/// Returns arrays in one another, `deep` of them, of which the innermost is empty, each the only value of the one
/// around it.
fn values_of(alloc: Global, deep: usize) -> Result<Vec<u8>, AllocError> {
    let mut values = Vec::new(alloc);
    for _ in 1..deep {
        values.extend_from_slice(&[0x08, 0x02])?;
    }
    values.extend_from_slice(&[0x08, 0x00])?;
    for _ in 1..deep {
        values.push(0x00)?;
    }
    Ok(values)
}

/// Returns whether the plan of a list whose reader puts its strings first finds one of `records` records.
fn is_turned(alloc: Global, records: usize) -> Result<bool, AllocError> {
    let program = planned_program(alloc, LIST_OF_PAIRS, TURNED_LIST_OF_PAIRS)?;
    let (mut list, mut wanted) = (Vec::new(alloc), Vec::new(alloc));
    for i in 0..records {
        let next = if i + 1 < records { 0x02 } else { 0x00 };
        list.extend_from_slice(&[0x04, 0x02, 0x61, next])?;
        wanted.extend_from_slice(&[0x02, 0x61, 0x04, next])?;
    }
    let (mut scratch, mut output) = (Scratch::new(alloc), Vec::new(alloc));
    let found = program.finds_output(&list, &mut scratch, &mut output, MOST_OUTPUT);
    Ok(found && output == wanted)
}

/// Returns `deep` records in one another, each but the last the only item of the array of the one before it, in a
/// block with its size, and the last with a text.
fn sized_of(alloc: Global, deep: usize, text: &[u8]) -> Result<Vec<u8>, AllocError> {
    let mut payload = Vec::new(alloc);
    payload.extend_from_slice(text)?;
    payload.push(0x00)?;
    for _ in 1..deep {
        let inner = mem::replace(&mut payload, Vec::new(alloc));
        payload.extend_from_slice(&[0x00, 0x01])?;
        put_long(&mut payload, inner.len() as i64)?;
        payload.extend_from_slice(&inner)?;
        payload.push(0x00)?;
    }
    Ok(payload)
}

/// Returns whether the plan that walks finds records of this depth, the last of which has a text of 8,000 letters.
fn is_walked(alloc: Global, depth: u8) -> Result<bool, AllocError> {
    let Some(text) = letters(alloc, 8_000)? else {
        return Ok(false);
    };
    let program = planned_program(alloc, HELD, HELD)?;
    let depth = usize::from(depth);
    let payload = sized_of(alloc, depth, &text)?;
    let (mut scratch, mut output) = (Scratch::new(alloc), Vec::new(alloc));
    let found = program.finds_output(&payload, &mut scratch, &mut output, MOST_OUTPUT);
    // (the sizes of all but the last take two bytes or three, and are not put; each level but the last puts 3 bytes)
    Ok(found && output.len() < payload.len() && output.len() == 8_000 + 3 * depth)
}

/// Returns whether the plan of a schema to itself finds a payload.
fn is_found(alloc: Global, schema: &str, payload: &[u8]) -> Result<bool, AllocError> {
    let program = planned_program(alloc, schema, schema)?;
    if !program.has_plan() {
        return Err(AllocError);
    }
    let (mut scratch, mut output) = (Scratch::new(alloc), Vec::new(alloc));
    let found = program.finds_output(payload, &mut scratch, &mut output, MOST_OUTPUT);
    Ok(found && output.as_slice() == payload)
}

/// Returns an enum of `symbols` symbols.
fn enum_of(alloc: Global, symbols: usize) -> Result<String, AllocError> {
    let mut text = String::from_str(alloc, r#"{"type":"enum","name":"E","symbols":["S0""#)?;
    for symbol in 1..symbols {
        let more = format!(in alloc; ",\"S{symbol}\"")?;
        text.push_str(&more)?;
    }
    text.push_str("]}")?;
    Ok(text)
}

/// Returns a union of `members` fixed types of one byte, from the first on or from the last.
fn union_of(alloc: Global, members: usize, is_turned: bool) -> Result<String, AllocError> {
    let mut text = String::from_str(alloc, "[")?;
    for i in 0..members {
        let name = if is_turned { members - 1 - i } else { i };
        let comma = if i > 0 { "," } else { "" };
        let member = format!(in alloc;
            "{comma}{{\"type\":\"fixed\",\"name\":\"F{name}\",\"size\":1}}"
        )?;
        text.push_str(&member)?;
    }
    text.push_str("]")?;
    Ok(text)
}

/// Returns whether the plan of unions of 70 branches finds one at a position, and puts it at that of the same branch
/// for a reader that has them the other way round.
fn is_moved(alloc: Global, payload: &[u8], turned: &[u8]) -> Result<bool, AllocError> {
    let (writer, reader) = (union_of(alloc, 70, false)?, union_of(alloc, 70, true)?);
    let program = planned_program(alloc, writer.as_str(), reader.as_str())?;
    let (mut scratch, mut output) = (Scratch::new(alloc), Vec::new(alloc));
    let found = program.finds_output(payload, &mut scratch, &mut output, MOST_OUTPUT);
    Ok(found && output.as_slice() == turned && is_found(alloc, writer.as_str(), payload)?)
}

/// Positions among 200 symbols, and whether a plan finds them: the first of two bytes, the last, one that no symbol
/// has, and one that is encoded longer than it need be.
const POSITIONS: &[Among] = &[
    Among {
        number: &[0x80, 0x01],
        found: true,
    },
    Among {
        number: &[0x8e, 0x03],
        found: true,
    },
    Among {
        number: &[0x90, 0x03],
        found: false,
    },
    Among {
        number: &[0x82, 0x00],
        found: false,
    },
];

/// Returns for how many of these positions the plan does as it says, from the first on.
fn positions_right(alloc: Global) -> Result<usize, AllocError> {
    let text = enum_of(alloc, 200)?;
    for (number, among) in POSITIONS.iter().enumerate() {
        if is_found(alloc, &text, among.number)? != among.found {
            return Ok(number);
        }
    }
    Ok(POSITIONS.len())
}

/// A number among others, and whether a plan finds them.
struct Among {
    number: &'static [u8],
    found: bool,
}

/// Numbers of one, of nine and of ten bytes, the greatest of these, one that is greater, one of eleven bytes, and
/// some that are encoded longer than they need be.
const AMONG: &[Among] = &[
    Among {
        number: &[0x01],
        found: true,
    },
    Among {
        number: &[0xff, 0xff, 0xff, 0xff, 0xff, 0xff, 0xff, 0xff, 0x7f],
        found: true,
    },
    Among {
        number: &[0x80, 0x80, 0x80, 0x80, 0x80, 0x80, 0x80, 0x80, 0x80, 0x01],
        found: true,
    },
    Among {
        number: &[0xff, 0xff, 0xff, 0xff, 0xff, 0xff, 0xff, 0xff, 0xff, 0x01],
        found: true,
    },
    Among {
        number: &[0xff, 0xff, 0xff, 0xff, 0xff, 0xff, 0xff, 0xff, 0xff, 0x02],
        found: false,
    },
    Among {
        number: &[
            0x80, 0x80, 0x80, 0x80, 0x80, 0x80, 0x80, 0x80, 0x80, 0x80, 0x01,
        ],
        found: false,
    },
    Among {
        number: &[0x81, 0x00],
        found: false,
    },
    Among {
        number: &[0x80, 0x80, 0x80, 0x80, 0x80, 0x80, 0x80, 0x80, 0x00],
        found: false,
    },
];

/// Returns an array of 60 longs, of which one comes after `before` others, of five bytes and of two.
fn array_with(alloc: Global, number: &[u8], before: usize) -> Result<Vec<u8>, AllocError> {
    let mut array = Vec::new(alloc);
    array.push(0x78)?;
    for i in 0..60_usize {
        let bytes: &[u8] = match (i == before, i % 2) {
            (true, _) => number,
            (false, 0) => &[0xff, 0x80, 0xff, 0x80, 0x01],
            (false, _) => &[0x80, 0x7f],
        };
        array.extend_from_slice(bytes)?;
    }
    array.push(0x00)?;
    Ok(array)
}

/// Returns for how many numbers the plan of arrays of longs does as it says, from the first on, each being at each
/// place.
fn arrays_right(alloc: Global) -> Result<usize, AllocError> {
    for (number, among) in AMONG.iter().enumerate() {
        for before in 0..60 {
            let array = array_with(alloc, among.number, before)?;
            if is_found(alloc, LONGS, &array)? != among.found {
                return Ok(number);
            }
        }
    }
    Ok(AMONG.len())
}

/// Returns a text of `length` letters, after its length. `None` where that takes more than two bytes.
pub(crate) fn letters(alloc: Global, length: usize) -> Result<Option<Vec<u8>>, AllocError> {
    let mut text = Vec::new(alloc);
    let low = (length % 64) as u8 * 2;
    match u8::try_from(length / 64) {
        Ok(0) => text.extend_from_slice(&[low])?,
        Ok(high) if high < 128 => text.extend_from_slice(&[low + 128, high])?,
        _ => return Ok(None),
    }
    for _ in 0..length {
        text.push(b'a')?;
    }
    Ok(Some(text))
}

/// Returns whether the plan of the program from `RECORD` to `EVOLVED` puts a text where it belongs.
fn is_put(alloc: Global, program: &PlannedProgram, text: &[u8]) -> Result<bool, AllocError> {
    if !program.has_plan() {
        return Ok(false);
    }
    let (mut payload, mut wanted) = (Vec::new(alloc), Vec::new(alloc));
    payload.push(0x36)?;
    payload.extend_from_slice(text)?;
    wanted.extend_from_slice(text)?;
    wanted.extend_from_slice(&[0x0e, 0x36])?;
    let (mut scratch, mut output) = (Scratch::new(alloc), Vec::new(alloc));
    let found = program.finds_output(&payload, &mut scratch, &mut output, MOST_OUTPUT);
    Ok(found && output == wanted)
}

/// Returns how many texts are put where they belong, from the empty one on, each a letter longer than the one before.
fn texts_right(alloc: Global, lengths: usize) -> Result<usize, AllocError> {
    let program = planned_program(alloc, RECORD, EVOLVED)?;
    for length in 0..lengths {
        let Some(text) = letters(alloc, length)? else {
            return Ok(length);
        };
        if !is_put(alloc, &program, &text)? {
            return Ok(length);
        }
    }
    Ok(lengths)
}

/// Returns how many rows of the table come out, from the first on.
fn rows_right(alloc: Global) -> Result<usize, AllocError> {
    for (number, row) in ROWS.iter().enumerate() {
        if !is_row(alloc, row)? {
            return Ok(number);
        }
    }
    Ok(ROWS.len())
}

/// Returns how many rows a run takes on a payload, one by one, before the one that ends it.
pub(crate) fn rows_alone(
    alloc: Global,
    program: &PlannedProgram,
    payload: &[u8],
) -> Result<u64, AllocError> {
    let mut run = Run::new(alloc, program);
    pushed(&mut run, payload)?;
    run.close();
    Ok(run.slice(&[NOWHERE], u64::MAX).rows.saturating_sub(1))
}

/// Returns whether the plan of a program counts as many rows on a payload as a run takes.
fn is_counted(alloc: Global, program: &PlannedProgram, payload: &[u8]) -> Result<bool, AllocError> {
    let (mut scratch, mut output) = (Scratch::new(alloc), Vec::new(alloc));
    let rows = rows_alone(alloc, program, payload)?;
    match program.rows_on(payload, &mut scratch, &mut output, MOST_OUTPUT) {
        Some(last) => Ok(last.rows == rows),
        None => Ok(false),
    }
}

/// Returns for how many rows of the table, from the first on, the rows of the program are counted correctly, where
/// its plan finds an output.
fn rows_counted(alloc: Global) -> Result<usize, AllocError> {
    for (number, row) in ROWS.iter().enumerate() {
        let Planned::Output(_) = row.planned else {
            continue;
        };
        let program = planned_program(alloc, row.writer, row.reader)?;
        if !is_counted(alloc, &program, row.payload)? {
            return Ok(number);
        }
    }
    Ok(ROWS.len())
}

/// Returns for how many texts the rows are counted correctly, from the empty one on, each a letter longer than the
/// one before.
fn texts_counted(alloc: Global, lengths: usize) -> Result<usize, AllocError> {
    let program = planned_program(alloc, STRING_ALONE, STRING_ALONE)?;
    for length in 0..lengths {
        let Some(text) = letters(alloc, length)? else {
            return Ok(length);
        };
        if !is_counted(alloc, &program, &text)? {
            return Ok(length);
        }
    }
    Ok(lengths)
}

#[test]
fn plans_count_the_rows_that_runs_take(rt: HostRuntime) -> Result<(), Fail> {
    let right = rows_counted(rt.alloc())?;
    assert_eq!(rt; right, ROWS.len());
    Ok(())
}

#[test]
fn plans_count_the_rows_of_texts_of_any_length(rt: HostRuntime) -> Result<(), Fail> {
    let right = texts_counted(rt.alloc(), 300)?;
    assert_eq!(rt; right, 300);
    Ok(())
}

#[test]
fn plans_find_usual_outputs(rt: HostRuntime) -> Result<(), Fail> {
    let right = rows_right(rt.alloc())?;
    assert_eq!(rt; right, ROWS.len());
    Ok(())
}

#[test]
fn plans_find_lists_of_a_thousand_levels(rt: HostRuntime) -> Result<(), Fail> {
    let most = is_found(rt.alloc(), LIST, &list_of(rt.alloc(), 1_000)?)?;
    let more = is_found(rt.alloc(), LIST, &list_of(rt.alloc(), 1_001)?)?;
    assert_eq!(rt; (most, more), (true, false));
    Ok(())
}

#[test]
fn plans_find_trees_of_a_thousand_levels(rt: HostRuntime) -> Result<(), Fail> {
    let most = is_found(rt.alloc(), TREE, &left_tree_of(rt.alloc(), 1_000)?)?;
    let more = is_found(rt.alloc(), TREE, &left_tree_of(rt.alloc(), 1_001)?)?;
    assert_eq!(rt; (most, more), (true, false));
    Ok(())
}

#[test]
fn plans_find_arrays_of_themselves_of_a_thousand_levels(rt: HostRuntime) -> Result<(), Fail> {
    let most = is_found(rt.alloc(), VALUE, &values_of(rt.alloc(), 500)?)?;
    let more = is_found(rt.alloc(), VALUE, &values_of(rt.alloc(), 501)?)?;
    assert_eq!(rt; (most, more), (true, false));
    Ok(())
}

#[test]
fn plans_find_lists_that_are_put_piece_by_piece(rt: HostRuntime) -> Result<(), Fail> {
    assert!(rt; is_turned(rt.alloc(), 1)?);
    assert!(rt; is_turned(rt.alloc(), 500)?);
    Ok(())
}

#[test]
fn plans_walk_over_blocks_in_one_another_a_few_times(rt: HostRuntime) -> Result<(), Fail> {
    assert!(rt; is_walked(rt.alloc(), 2)?);
    assert!(rt; is_walked(rt.alloc(), 50)?);
    // (the text would be put aside more often than rows take to put it)
    assert!(rt; !is_walked(rt.alloc(), 120)?);
    Ok(())
}

#[test]
fn plans_find_longs_of_any_length_at_any_place(rt: HostRuntime) -> Result<(), Fail> {
    let right = arrays_right(rt.alloc())?;
    assert_eq!(rt; right, AMONG.len());
    Ok(())
}

#[test]
fn plans_find_symbols_whose_positions_have_two_bytes(rt: HostRuntime) -> Result<(), Fail> {
    let right = positions_right(rt.alloc())?;
    assert_eq!(rt; right, POSITIONS.len());
    Ok(())
}

#[test]
fn plans_find_branches_whose_positions_have_two_bytes(rt: HostRuntime) -> Result<(), Fail> {
    // (the branches 63, 64 and 69, which the reader has at 6, 5 and 0, and the branch 0 at 69)
    assert!(rt; is_moved(rt.alloc(), &[0x7e, 0x61], &[0x0c, 0x61])?);
    assert!(rt; is_moved(rt.alloc(), &[0x80, 0x01, 0x61], &[0x0a, 0x61])?);
    assert!(rt; is_moved(rt.alloc(), &[0x8a, 0x01, 0x61], &[0x00, 0x61])?);
    assert!(rt; is_moved(rt.alloc(), &[0x00, 0x61], &[0x8a, 0x01, 0x61])?);
    // (a position that is encoded longer than it need be, and one that no branch has)
    assert!(rt; !is_moved(rt.alloc(), &[0x80, 0x00, 0x61], &[0x8a, 0x01, 0x61])?);
    assert!(rt; !is_moved(rt.alloc(), &[0x8c, 0x01, 0x61], &[0x00, 0x61])?);
    Ok(())
}

#[test]
fn plans_put_texts_of_any_length(rt: HostRuntime) -> Result<(), Fail> {
    let right = texts_right(rt.alloc(), 1_200)?;
    assert_eq!(rt; right, 1_200);
    Ok(())
}
