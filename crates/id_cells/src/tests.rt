//! Tests of a table: ids at the borders of bytes, the first value that stays, rows that are not made, and threads.

ghost use Rattle.std.specs.Prelude.{◌≡◌, Some, IfSome};
ghost use Rattle.spec_registry.specs.Path.{IsPathOf};

use crate::bytes::byte_of;
use crate::row::Row;
use crate::{HeldValue, IdNote, IdTable};
use std::alloc::{AllocError, Global};
use std::sync::Arc;
use std::thread;
use std::thread::Threads;

/// The ids at the borders of the four bytes.
const IDS: [u32; 7] = [0, 1, 255, 256, 65_535, 16_777_216, 4_294_967_295];

/// The bits in which an id differs from its neighbours: the lowest and the highest of each byte.
const NEIGHBOURS: [u32; 8] = [
    1,
    1 << 7,
    1 << 8,
    1 << 15,
    1 << 16,
    1 << 23,
    1 << 24,
    1 << 31,
];

/// Holds a value for an id. Returns whether it is the id and what is then held, and the note is one of the id.
fn is_held(table: &IdTable<u32>, id: u32, value: Box<u32>) -> Result<bool, AllocError> {
    let (held, note, which) = table.hold(id, value)?;
    Ok(*held == id && note.id() == id && which == HeldValue::Given)
}

/// Returns whether an id is what is found for it, and what its note shows.
fn is_found(table: &IdTable<u32>, id: u32) -> bool {
    match table.find(id) {
        Some((found, mut note)) => {
            let is_right = *found == id && note.id() == id;
            is_right && *table.held(&mut note) == id
        }
        None => false,
    }
}

/// Returns whether nothing is found for the neighbours of an id.
fn is_alone(table: &IdTable<u32>, id: u32) -> bool {
    let mut right = true;
    for bit in NEIGHBOURS {
        right &= table.find(id ^ bit).is_none();
    }
    right
}

/// Returns whether an id that is held in a table of its own is found there, and not before, nor its neighbours.
fn is_found_alone(alloc: Global, id: u32) -> Result<bool, AllocError> {
    let value = Box::new(alloc, id)?;
    let table = IdTable::new(alloc)?;
    let is_new = table.find(id).is_none();
    let was_held = is_held(&table, id, value)?;
    Ok(is_new && was_held && is_found(&table, id) && is_alone(&table, id))
}

/// Returns whether each of the ids is found alone.
fn each_is_found_alone(alloc: Global) -> Result<bool, AllocError> {
    let mut right = true;
    for id in IDS {
        right &= is_found_alone(alloc, id)?;
    }
    Ok(right)
}

#[test]
fn a_value_is_found_under_its_id_alone(rt: HostRuntime) -> Result<(), AllocError> {
    assert!(rt; each_is_found_alone(rt.alloc())?);
    Ok(())
}

/// Holds each of the ids for itself. Returns whether all are then held.
fn all_are_held(alloc: Global, table: &IdTable<u32>) -> Result<bool, AllocError> {
    let mut right = true;
    for id in IDS {
        right &= is_held(table, id, Box::new(alloc, id)?)?;
    }
    Ok(right)
}

/// Returns whether each of the ids is found.
fn all_are_found(table: &IdTable<u32>) -> bool {
    let mut right = true;
    for id in IDS {
        right &= is_found(table, id);
    }
    right
}

/// Returns whether all of the ids are held in one table, and then found.
fn each_has_its_own(alloc: Global) -> Result<bool, AllocError> {
    let table = IdTable::new(alloc)?;
    let are_held = all_are_held(alloc, &table)?;
    Ok(are_held && all_are_found(&table))
}

#[test]
fn each_id_of_one_table_has_its_own_value(rt: HostRuntime) -> Result<(), AllocError> {
    assert!(rt; each_has_its_own(rt.alloc())?);
    Ok(())
}

/// Holds 70 and then 71 for an id. Returns whether 70 is what is held, and what the notes of both show.
fn first_is_held(
    table: &IdTable<u8>,
    id: u32,
    one: Box<u8>,
    two: Box<u8>,
) -> Result<bool, AllocError> {
    let (first, mut one, which) = table.hold(id, one)?;
    let is_first = *first == 70 && which == HeldValue::Given;
    let (second, mut two, which) = table.hold(id, two)?;
    let is_second = *second == 70 && which == HeldValue::Earlier;
    table.agree(&mut one, &mut two);
    let are_shown = *table.held(&mut one) == 70 && *table.held(&mut two.again()) == 70;
    Ok(is_first && is_second && are_shown)
}

/// Returns whether the first value that is held for an id stays.
fn first_stays(alloc: Global) -> Result<bool, AllocError> {
    let one = Box::new(alloc, 70u8)?;
    let two = Box::new(alloc, 71u8)?;
    let table = IdTable::new(alloc)?;
    first_is_held(&table, 7, one, two)
}

#[test]
fn the_first_value_stays(rt: HostRuntime) -> Result<(), AllocError> {
    assert!(rt; first_stays(rt.alloc())?);
    Ok(())
}

/// Holds a value twice for an id. Returns whether there are then two of it: the caller's, and the one that is held.
fn is_held_once(
    alloc: Global,
    table: &IdTable<Arc<u8, Global>>,
    counted: &Arc<u8, Global>,
) -> Result<bool, AllocError> {
    for _ in 0..2 {
        let value = Box::new(alloc, counted.clone()?)?;
        let (_, _note, _) = table.hold(65_536, value)?;
    }
    Ok(Arc::strong_count(counted) == 2)
}

/// Returns whether values are dropped: one that is not the first at once, and the first with the table.
fn values_are_dropped(alloc: Global) -> Result<bool, AllocError> {
    let counted = Arc::new(alloc, 0u8)?;
    let table = IdTable::new(alloc)?;
    let was_held_once = is_held_once(alloc, &table, &counted)?;
    drop(table);
    Ok(was_held_once && Arc::strong_count(&counted) == 1)
}

#[test]
fn each_value_is_dropped(rt: HostRuntime) -> Result<(), AllocError> {
    assert!(rt; values_are_dropped(rt.alloc())?);
    Ok(())
}

/// Returns whether a third row has the fourth one of the id 0, and none of the id 256.
fn has_fourth_of_zero(third: &Row<Row<u8>>) -> bool {
    third.find(1).is_none() && third.find(0).is_some()
}

/// Returns whether a second row has the rows of the id 0, and none of the ids 256 and 65,536.
fn has_third_of_zero(second: &Row<Row<Row<u8>>>) -> bool {
    match second.find(0) {
        Some((third, _note)) => second.find(1).is_none() && has_fourth_of_zero(third),
        None => false,
    }
}

/// Returns whether a table has the rows of the id 0, and none of the ids 256 and 65,536.
fn has_rows_of_zero(table: &IdTable<u8>) -> bool {
    match table.first.find(0) {
        Some((second, _note)) => has_third_of_zero(second),
        None => false,
    }
}

/// Returns whether no row is made where an id is looked for: in a new table, and in one that holds a value for 0.
fn find_leaves_rows(alloc: Global) -> Result<bool, AllocError> {
    let value = Box::new(alloc, 0u8)?;
    let table = IdTable::new(alloc)?;
    let mut right = table.find(65_536).is_none();
    right &= table.first.find(byte_of(65_536, 3)).is_none();
    let (_, _note, _) = table.hold(0, value)?;
    right &= table.find(65_536).is_none() && table.find(256).is_none();
    Ok(right && has_rows_of_zero(&table))
}

#[test]
fn find_makes_no_row(rt: HostRuntime) -> Result<(), AllocError> {
    assert!(rt; find_leaves_rows(rt.alloc())?);
    Ok(())
}

/// Holds a value for an id, and returns what is then held, with its note. None where memory ran out.
fn hold_one(table: &IdTable<u8>, id: u32, value: Box<u8>) -> Option<(u8, IdNote<u8>)>
    ensures { IfSome result (λ r. IsPathOf table.now r.1 × (r.1.id ≡ id) × (r.1.last.1 ≡ Some r.0)) }
{
    match table.hold(id, value) {
        Ok((held, note, _)) => Some((*held, note)),
        Err(_) => None,
    }
}

/// What two threads got.
#[derive(Clone, Copy)]
struct Got {
    one: u8,
    other: u8,
}

/// Holds two values for one id by two threads, and returns what each of them got. None where memory ran out.
fn hold_at_once<R: Threads + Sync>(
    rt: &R,
    table: &IdTable<u8>,
    id: u32,
    one: Box<u8>,
    two: Box<u8>,
) -> Option<Got>
    ensures { IfSome result (λ got. got.one ≡ got.other) }
{
    let (one, two) = thread::join(
        rt,
        move || -> Option<(u8, IdNote<u8>)>
            ensures { IfSome result (λ r. IsPathOf table.entry.now r.1 × (r.1.id ≡ id) × (r.1.last.1 ≡ Some r.0)) }
        { hold_one(table, id, one) },
        move || -> Option<(u8, IdNote<u8>)>
            ensures { IfSome result (λ r. IsPathOf table.entry.now r.1 × (r.1.id ≡ id) × (r.1.last.1 ≡ Some r.0)) }
        { hold_one(table, id, two) },
    );
    let (first, mut one) = one?;
    let (second, mut two) = two?;
    table.agree(&mut one, &mut two);
    Some(Got {
        one: first,
        other: second,
    })
}

/// Returns whether two threads that hold for an id get one value, which is then found.
fn threads_get_one<R: Threads + Sync>(
    rt: &R,
    alloc: Global,
    table: &IdTable<u8>,
    id: u32,
) -> Result<bool, AllocError> {
    let one = Box::new(alloc, 1u8)?;
    let two = Box::new(alloc, 2u8)?;
    let Some(got) = hold_at_once(rt, table, id, one, two) else {
        return Err(AllocError);
    };
    let found = table.find(id).map(|(value, _note)| *value);
    Ok(got.one == got.other && found == Some(got.one))
}

/// Returns whether threads get one value for each of many ids.
fn threads_always_get_one<R: Threads + Sync>(rt: &R, alloc: Global) -> Result<bool, AllocError> {
    let table = IdTable::new(alloc)?;
    let mut right = true;
    for id in 0..200 {
        right &= threads_get_one(rt, alloc, &table, id * 300)?;
    }
    Ok(right)
}

#[test]
fn threads_that_hold_for_one_id_get_one_value(rt: HostRuntime) -> Result<(), AllocError> {
    assert!(rt; threads_always_get_one(&rt, rt.alloc())?);
    Ok(())
}
