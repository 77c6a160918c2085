//! Writing the datum of a node, and measuring it first.

ghost use Rattle.std.specs.Prelude.{◌≡◌, ◌++◌, ◌+◌, ◌<◌, ◌^◌, [], length, OnOk, OnErr};
ghost use Rattle.avro_bytes.specs.Shortest.{Extends};
ghost use Rattle.avro_types.specs.Datum.{data_of, datum_of, pairs_of};
ghost use Rattle.spec_avro.specs.Written.{after_length, block_count, in_block};
ghost use Rattle.avro_datum.specs.Writing.{LeavesRoom, Writes};
ghost use Rattle.spec_avro.specs.Writing.{written, written_data, written_pairs};

use avro_bytes::{MOST_OUTPUT, long_len, put_long};
use avro_types::Datum;
use std::alloc::AllocError;
use thiserror::Error;

/// Why a datum was not written.
#[derive(Clone, Copy, Debug, PartialEq, Eq, Error)]
pub enum WriteError {
    #[error("the written datum passes its limit")]
    TooLarge,
    #[error("out of memory")]
    NoMemory,
}

/// Returns what is left of `room` bytes after `len` bytes; `None` where they have no room.
fn left_after(room: usize, len: usize) -> Option<usize>
    ensures { LeavesRoom result room len }
{
    room.checked_sub(len)
}

/// Returns what is left of `room` bytes after bytes and their length; `None` where they have no room.
fn measure_bytes(bytes: &[u8], room: usize) -> Option<usize>
    ensures { LeavesRoom result room (length (after_length bytes.now)) }
{
    let left = left_after(room, long_len(bytes.len() as i64))?;
    left_after(left, bytes.len())
}

/// Returns what is left of `room` bytes after the count of a block and its end; `None` where they have no room.
#[tactic(auto, using(crate::proofs::Written::empty_block, crate::proofs::Written::some_count, crate::proofs::Written::no_count))]
fn measure_block(many: usize, room: usize) -> Option<usize>
    requires { many < 2 ^ 63 }
    ensures { LeavesRoom result room (length (in_block many [])) }
{
    let left = left_after(room, 1)?;
    if many == 0 {
        return Some(left);
    }
    left_after(left, long_len(many as i64))
}

/// Returns what is left of `room` bytes after a datum in its written form; `None` where it has no room.
#[cycle(measure)]
#[tactic(auto, using(crate::proofs::Written::record_written, crate::proofs::Written::array_len, crate::proofs::Written::map_len), unfolding(spec_avro::specs::Writing::written))]
fn measure(datum: &Datum, room: usize) -> Option<usize>
    ensures { LeavesRoom result room (length (written (datum_of datum.now))) }
{
    match datum {
        Datum::Null => Some(room),
        Datum::Boolean(_) => left_after(room, 1),
        Datum::Int(n) => left_after(room, long_len(i64::from(*n))),
        Datum::Long(n) => left_after(room, long_len(*n)),
        Datum::Bytes(value) => measure_bytes(value.as_slice(), room),
        Datum::Text(text) => measure_bytes(text.as_bytes(), room),
        Datum::Fixed(value) => left_after(room, value.len()),
        Datum::Enum(n) => left_after(room, long_len(i64::from(*n))),
        Datum::Array(items) => measure_each(items, measure_block(items.len(), room)?),
        Datum::Map(pairs) => measure_pairs(pairs, measure_block(pairs.len(), room)?),
        Datum::Union(n, datum) => measure(datum, left_after(room, long_len(i64::from(*n)))?),
        Datum::Record(fields) => measure_each(fields, room),
    }
}

/// Returns what is left of `room` bytes after data; `None` where they have no room.
#[cycle(measure)]
#[tactic(auto, using(crate::proofs::Written::written_from), unfolding(spec_avro::specs::Writing::written))]
fn measure_each(each: &[Datum], room: usize) -> Option<usize>
    ensures { LeavesRoom result room (length (written_data (data_of each.now))) }
{
    let mut left = room;
    for datum in each {
        left = measure(datum, left)?;
    }
    Some(left)
}

/// Returns what is left of `room` bytes after the pairs of a map; `None` where they have no room.
#[cycle(measure)]
#[tactic(auto, using(crate::proofs::Written::pairs_len_from), unfolding(spec_avro::specs::Writing::written))]
fn measure_pairs(pairs: &[(String, Datum)], room: usize) -> Option<usize>
    ensures { LeavesRoom result room (length (written_pairs (pairs_of pairs.now))) }
{
    let mut left = room;
    for pair in pairs {
        left = measure_bytes(pair.0.as_bytes(), left)?;
        left = measure(&pair.1, left)?;
    }
    Some(left)
}

/// Appends bytes after their length. An `Err` leaves a beginning of them.
fn put_bytes(out: &mut Vec<u8>, bytes: &[u8]) -> Result<(), AllocError>
    ensures ok { OnOk result (out.new.items ≡ out.old.items ++ after_length bytes.now) }
    ensures err { OnErr result (Extends out.old.items out.new.items) }
{
    put_long(out, bytes.len() as i64)?;
    out.extend_from_slice(bytes)
}

/// Appends the count of a block, or nothing where it has no items. An `Err` leaves the vector as it was.
fn put_count(out: &mut Vec<u8>, many: usize) -> Result<(), AllocError>
    requires { many < 2 ^ 63 }
    ensures ok { OnOk result (out.new.items ≡ out.old.items ++ block_count many) }
    ensures err { OnErr result (out.new.items ≡ out.old.items) }
{
    if many == 0 {
        return Ok(());
    }
    put_long(out, many as i64)
}

/// Appends a datum in its written form. An `Err` leaves a beginning of it.
#[cycle(put)]
#[tactic(auto, using(crate::proofs::Written::record_written, crate::proofs::Written::array_written, crate::proofs::Written::map_written), unfolding(spec_avro::specs::Writing::written))]
fn put_datum(out: &mut Vec<u8>, datum: &Datum) -> Result<(), AllocError>
    ensures ok { OnOk result (out.new.items ≡ out.old.items ++ written (datum_of datum.now)) }
    ensures err { OnErr result (Extends out.old.items out.new.items) }
{
    match datum {
        Datum::Null => Ok(()),
        Datum::Boolean(value) => {
            out.push(u8::from(*value))?;
            Ok(())
        }
        Datum::Int(n) => put_long(out, i64::from(*n)),
        Datum::Long(n) => put_long(out, *n),
        Datum::Bytes(value) => put_bytes(out, value.as_slice()),
        Datum::Text(text) => put_bytes(out, text.as_bytes()),
        Datum::Fixed(value) => out.extend_from_slice(value.as_slice()),
        Datum::Enum(n) => put_long(out, i64::from(*n)),
        Datum::Array(items) => put_items(out, items),
        Datum::Map(pairs) => put_map(out, pairs),
        Datum::Union(n, datum) => {
            put_long(out, i64::from(*n))?;
            put_datum(out, datum)
        }
        Datum::Record(fields) => put_each(out, fields),
    }
}

/// Appends items in one block, and the count 0 after it. An `Err` leaves a beginning of them.
#[cycle(put)]
fn put_items(out: &mut Vec<u8>, items: &[Datum]) -> Result<(), AllocError>
    ensures ok { OnOk result (out.new.items
        ≡ out.old.items ++ in_block (length items.now) (written_data (data_of items.now))) }
    ensures err { OnErr result (Extends out.old.items out.new.items) }
{
    put_count(out, items.len())?;
    put_each(out, items)?;
    put_long(out, 0)
}

/// Appends the pairs of a map in one block, and the count 0 after it. An `Err` leaves a beginning of them.
#[cycle(put)]
fn put_map(out: &mut Vec<u8>, pairs: &[(String, Datum)]) -> Result<(), AllocError>
    ensures ok { OnOk result (out.new.items
        ≡ out.old.items ++ in_block (length pairs.now) (written_pairs (pairs_of pairs.now))) }
    ensures err { OnErr result (Extends out.old.items out.new.items) }
{
    put_count(out, pairs.len())?;
    put_pairs(out, pairs)?;
    put_long(out, 0)
}

/// Appends data, in order. An `Err` leaves a beginning of them.
#[cycle(put)]
#[tactic(auto, using(crate::proofs::Written::written_from), unfolding(spec_avro::specs::Writing::written))]
fn put_each(out: &mut Vec<u8>, each: &[Datum]) -> Result<(), AllocError>
    ensures ok { OnOk result (out.new.items ≡ out.old.items ++ written_data (data_of each.now)) }
    ensures err { OnErr result (Extends out.old.items out.new.items) }
{
    for datum in each {
        put_datum(out, datum)?;
    }
    Ok(())
}

/// Appends the pairs of a map, in order. An `Err` leaves a beginning of them.
#[cycle(put)]
#[tactic(auto, using(crate::proofs::Written::pairs_from), unfolding(spec_avro::specs::Writing::written))]
fn put_pairs(out: &mut Vec<u8>, pairs: &[(String, Datum)]) -> Result<(), AllocError>
    ensures ok { OnOk result (out.new.items ≡ out.old.items ++ written_pairs (pairs_of pairs.now)) }
    ensures err { OnErr result (Extends out.old.items out.new.items) }
{
    for pair in pairs {
        put_bytes(out, pair.0.as_bytes())?;
        put_datum(out, &pair.1)?;
    }
    Ok(())
}

/// Appends a datum to a vector, in its one written form.
///
/// An `Err` leaves the vector as it was: `TooLarge`, returned before memory is asked for, where the written form has
/// more than `MOST_OUTPUT` bytes, and `NoMemory`.
pub fn write(datum: &Datum, out: &mut Vec<u8>) -> Result<(), WriteError>
    ensures { Writes result (datum_of datum.now) out.old.items out.new.items }
{
    if measure(datum, MOST_OUTPUT).is_none() {
        return Err(WriteError::TooLarge);
    }
    let len = out.len();
    if put_datum(out, datum).is_err() {
        out.truncate(len);
        return Err(WriteError::NoMemory);
    }
    Ok(())
}
