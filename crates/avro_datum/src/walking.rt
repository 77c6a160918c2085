//! Walking over the datum of a node: reading it, and skipping it.

ghost use Rattle.std.specs.Prelude.{◌≡◌, ◌<◌, ◌≤◌, ◌-◌, ◌+◌, length, slice_get, false, IfOk};
ghost use Rattle.avro_bytes.specs.Contract.{Reads, skipped};
ghost use Rattle.avro_bytes.specs.Decoding.{map_decoding};
ghost use Rattle.avro_types.specs.Datum.{datum_of};
ghost use Rattle.avro_types.specs.Node.{fields_of};
ghost use Rattle.spec_avro.specs.WellFormed.{FieldsBelow, is_union};
ghost use Rattle.avro_datum.specs.Decoding.{datum_at, node_at, record_at};
ghost use Rattle.avro_datum.specs.ItemDecoding.{blocks_at};
ghost use Rattle.avro_datum.specs.Memory.{Lacks};
ghost use Rattle.avro_datum.specs.Walking.{Walked, key_at, part_at, whole_of};

use crate::leaf::walk_leaf;
use crate::parts::{Blocks, Parts};
use crate::sink::{Keep, Pass, Sink};
use avro_bytes::{BlockWalk, Fault, MOST_DEPTH, MalformedKind, Meter, enter_record, read_position};
use avro_types::{Datum, Field, Kind, Nodes};
use std::alloc::Global;

/// Reads the datum of a node at an offset: the datum, the offset after it, and the meter; else the first fault.
pub(crate) fn read_node(
    alloc: Global,
    nodes: &Nodes,
    node: usize,
    bytes: &[u8],
    at: usize,
    meter: Meter,
) -> Result<(Datum, usize, Meter), Fault>
    requires node { node < length nodes.now }
    requires in_bounds { at ≤ length bytes.now }
    ensures reads { Reads datum_of (Lacks nodes.now node) result (datum_at nodes.now bytes.now node at meter) }
    ensures within { IfOk result (λ r. r.1 ≤ length bytes.now) }
    ensures depth { IfOk result (λ r. r.2.depth ≡ meter.depth) }
    ensures units { IfOk result (λ r. meter.units ≤ r.2.units) }
{
    walk_node(&Keep { alloc }, nodes, node, bytes, at, meter)
}

/// Skips the datum of a node at an offset: returns the offset after it and the meter, or the first fault. Allocates
/// nothing.
pub(crate) fn skip_node(
    alloc: Global,
    nodes: &Nodes,
    node: usize,
    bytes: &[u8],
    at: usize,
    meter: Meter,
) -> Result<(usize, Meter), Fault>
    requires node { node < length nodes.now }
    requires in_bounds { at ≤ length bytes.now }
    ensures skips { result ≡ skipped (datum_at nodes.now bytes.now node at meter) }
    ensures within { IfOk result (λ r. r.0 ≤ length bytes.now) }
    ensures depth { IfOk result (λ r. r.1.depth ≡ meter.depth) }
    ensures units { IfOk result (λ r. meter.units ≤ r.1.units) }
{
    let (_, to, after) = walk_node(&Pass { alloc }, nodes, node, bytes, at, meter)?;
    Ok((to, after))
}

/// Walks over the datum of a node at an offset: what is kept of it, the offset after it, and the meter; else the first
/// fault.
#[cycle(walk)]
fn walk_node<S: Sink>(
    sink: &S,
    nodes: &Nodes,
    node: usize,
    bytes: &[u8],
    at: usize,
    meter: Meter,
) -> Result<(S::Kept, usize, Meter), Fault>
    requires node { node < length nodes.now }
    requires in_bounds { at ≤ length bytes.now }
    ensures walks { Walked S.sees (λ x. S.may_lack × Lacks nodes.now node x) result
        (datum_at nodes.now bytes.now node at meter) }
    ensures within { IfOk result (λ r. r.1 ≤ length bytes.now) }
    ensures depth { IfOk result (λ r. r.2.depth ≡ meter.depth) }
    ensures units { IfOk result (λ r. meter.units ≤ r.2.units) }
{
    let Kind::Union(members) = nodes.kind(node) else {
        return walk_plain(sink, nodes, node, bytes, at, meter);
    };
    let (n, to, after) = read_position(MalformedKind::BadBranch, members.len(), bytes, at, meter)?;
    let member = members[n as usize];
    let (datum, end, last) = walk_plain(sink, nodes, member, bytes, to, after)?;
    let whole = sink.branch(n, datum)?;
    Ok((whole, end, last))
}

/// Walks over the datum of a node that is no union.
#[cycle(walk)]
fn walk_plain<S: Sink>(
    sink: &S,
    nodes: &Nodes,
    node: usize,
    bytes: &[u8],
    at: usize,
    meter: Meter,
) -> Result<(S::Kept, usize, Meter), Fault>
    requires node { node < length nodes.now }
    requires no_union { is_union (slice_get nodes.now node) ≡ false }
    requires in_bounds { at ≤ length bytes.now }
    ensures walks { Walked S.sees (λ x. S.may_lack × Lacks nodes.now node x) result
        (datum_at nodes.now bytes.now node at meter) }
    ensures within { IfOk result (λ r. r.1 ≤ length bytes.now) }
    ensures depth { IfOk result (λ r. r.2.depth ≡ meter.depth) }
    ensures units { IfOk result (λ r. meter.units ≤ r.2.units) }
{
    let kind = nodes.kind(node);
    match kind {
        Kind::Record { fields, .. } => walk_record(sink, nodes, fields, bytes, at, meter),
        Kind::Array(inner) => {
            let blocks = Blocks {
                parts: Parts::Items,
                inner: *inner,
            };
            walk_blocks(sink, nodes, blocks, bytes, at, meter)
        }
        Kind::Map(inner) => {
            let blocks = Blocks {
                parts: Parts::Pairs,
                inner: *inner,
            };
            walk_blocks(sink, nodes, blocks, bytes, at, meter)
        }
        Kind::Union(_) => unreachable!(),
        _ => walk_leaf(sink, kind, bytes, at, meter),
    }
}

/// Walks over a record: the data of its fields, in order.
#[cycle(walk)]
fn walk_record<S: Sink>(
    sink: &S,
    nodes: &Nodes,
    fields: &[Field],
    bytes: &[u8],
    at: usize,
    meter: Meter,
) -> Result<(S::Kept, usize, Meter), Fault>
    requires fields { FieldsBelow (length nodes.now) (fields_of fields.now) }
    requires in_bounds { at ≤ length bytes.now }
    ensures walks { Walked S.sees (λ x. S.may_lack) result
        (record_at (node_at (MOST_DEPTH - (meter.depth + 1)) nodes.now bytes.now) (fields_of fields.now) at meter) }
    ensures within { IfOk result (λ r. r.1 ≤ length bytes.now) }
    ensures depth { IfOk result (λ r. r.2.depth ≡ meter.depth) }
    ensures units { IfOk result (λ r. meter.units ≤ r.2.units) }
{
    let mut so_far = enter_record(meter, at)?;
    let mut group = sink.no_parts(Parts::Fields);
    let mut to = at;
    for field in fields {
        let (datum, next, after) = walk_node(sink, nodes, field.node, bytes, to, so_far)?;
        sink.push(&mut group, sink.no_key(), datum)?;
        to = next;
        so_far = after;
    }
    let outside = Meter {
        depth: meter.depth,
        units: so_far.units,
    };
    Ok((sink.whole(group), to, outside))
}

/// Walks over the blocks of an array or a map, each item or pair in its turn.
#[cycle(walk)]
fn walk_blocks<S: Sink>(
    sink: &S,
    nodes: &Nodes,
    blocks: Blocks,
    bytes: &[u8],
    at: usize,
    meter: Meter,
) -> Result<(S::Kept, usize, Meter), Fault>
    requires inner { blocks.inner < length nodes.now }
    requires in_bounds { at ≤ length bytes.now }
    ensures walks { Walked S.sees (λ x. S.may_lack) result (map_decoding (whole_of blocks.parts)
        (blocks_at (part_at blocks.parts (node_at (MOST_DEPTH - (meter.depth + 1)) nodes.now bytes.now) bytes.now
        blocks.inner) bytes.now at meter)) }
    ensures within { IfOk result (λ r. r.1 ≤ length bytes.now) }
    ensures depth { IfOk result (λ r. r.2.depth ≡ meter.depth) }
    ensures units { IfOk result (λ r. meter.units ≤ r.2.units) }
{
    let (mut walk, mut so_far) = BlockWalk::begin(at, meter)?;
    let mut group = sink.no_parts(blocks.parts);
    let mut to = at;
    'parts: loop {
        let (further, place, opened) = walk.next(bytes, to, so_far)?;
        if !further {
            return Ok((sink.whole(group), place, opened));
        }
        let (key, start, keyed) = walk_key(sink, blocks.parts, bytes, place, opened)?;
        let (datum, end, last) = walk_node(sink, nodes, blocks.inner, bytes, start, keyed)?;
        sink.push(&mut group, key, datum)?;
        to = end;
        so_far = last;
    }
}

/// Walks over the key of a part; one that has none begins with its datum.
fn walk_key<S: Sink>(
    sink: &S,
    parts: Parts,
    bytes: &[u8],
    at: usize,
    meter: Meter,
) -> Result<(S::Key, usize, Meter), Fault>
    requires { at ≤ length bytes.now }
    ensures walks { Walked S.sees_key (λ x. S.may_lack) result (key_at parts bytes.now at meter) }
    ensures within { IfOk result (λ r. r.1 ≤ length bytes.now) }
    ensures depth { IfOk result (λ r. r.2.depth ≡ meter.depth) }
    ensures units { IfOk result (λ r. meter.units ≤ r.2.units) }
{
    match parts {
        Parts::Pairs => sink.key(bytes, at, meter),
        Parts::Fields | Parts::Items => Ok((sink.no_key(), at, meter)),
    }
}
