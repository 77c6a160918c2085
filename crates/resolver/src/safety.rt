//! Whether a reader can read all that a writer writes.

ghost use Rattle.std.specs.Prelude.{◌≡◌, ◌<◌, ◌↔◌, [], ◌∷◌, is_some, length, map, option_map, slice_get, IfOk, IfSome, IsTrue, OnOk};
ghost use Rattle.avro_types.specs.Node.{fields_of};
ghost use Rattle.resolver.specs.Pairs.{AddsAll, AreWithin};
ghost use Rattle.spec_avro.specs.Partners.{routes};
ghost use Rattle.resolver.specs.NextPairs.{is_bad, next_pairs, part_steps, partner_pairs, unless};
ghost use Rattle.spec_avro.specs.Resolution.{lacking};
ghost use Rattle.spec_avro.specs.Safety.{IsSafe};

use crate::fields::first_lacking;
use crate::pairs::PairList;
use crate::symbols::some_missing;
use crate::{Destination, Route, place_of, routes};
use avro_types::{Field, Kind, Nodes};
use std::alloc::{AllocError, Global};

/// Returns each branch of a writer's union, paired with the reader's node.
fn member_pairs(
    alloc: Global,
    members: &[usize],
    rn: usize,
) -> Result<Vec<(usize, usize)>, AllocError>
    ensures { IfOk result (λ v. v.items ≡ map (λ m. (m, rn)) members.now) }
{
    members.iter().map(|member| (*member, rn)).collect(alloc)
}

/// Returns a list of one pair.
fn one_pair(alloc: Global, pair: (usize, usize)) -> Result<Vec<(usize, usize)>, AllocError>
    ensures { IfOk result (λ v. v.items ≡ pair ∷ []) }
{
    let mut pairs = Vec::new(alloc);
    pairs.push(pair)?;
    Ok(pairs)
}

/// Returns the nodes of the fields that have partners, each with its partner's node.
fn partner_pairs(alloc: Global, routes: &[Route]) -> Result<Vec<(usize, usize)>, AllocError>
    ensures { IfOk result (λ v. v.items ≡ partner_pairs routes.now) }
{
    let mut pairs = Vec::new(alloc);
    for route in routes {
        if let Some(partner) = route.partner {
            pairs.push((route.node, partner.node))?;
        }
    }
    Ok(pairs)
}

/// Returns the nodes of the fields of two records that have partners, each with its partner's node; `None` where a
/// field of the reader has neither a partner nor a default. The fields are matched once.
fn field_pairs(
    alloc: Global,
    ws: &[Field],
    rs: &[Field],
) -> Result<Option<Vec<(usize, usize)>>, AllocError>
    ensures { IfOk result (λ o. option_map (λ v. v.items) o
        ≡ unless (is_some (lacking (fields_of ws.now) (fields_of rs.now)))
        (partner_pairs (routes (fields_of ws.now) (fields_of rs.now)))) }
{
    let routes = routes(alloc, ws, rs)?;
    if first_lacking(alloc, &routes, rs)?.is_some() {
        return Ok(None);
    }
    Ok(Some(partner_pairs(alloc, &routes)?))
}

/// Returns the pairs of the items, values or fields of two nodes that match; `None` where a field of the reader has
/// neither a partner nor a default, or where its enum lacks a symbol and has no default.
fn part_pairs(
    alloc: Global,
    w: &Nodes,
    wn: usize,
    r: &Nodes,
    rn: usize,
) -> Result<Option<Vec<(usize, usize)>>, AllocError>
    requires writer { wn < length w.now }
    requires reader { rn < length r.now }
    ensures pairs { IfOk result (λ o. option_map (λ v. v.items) o
        ≡ part_steps (slice_get w.now wn) (slice_get r.now rn)) }
    ensures within { IfOk result (λ o. IfSome o (λ v. AreWithin (length w.now) (length r.now) v.items)) }
{
    match (w.kind(wn), r.kind(rn)) {
        (Kind::Array(item), Kind::Array(other)) => Ok(Some(one_pair(alloc, (*item, *other))?)),
        (Kind::Map(value), Kind::Map(other)) => Ok(Some(one_pair(alloc, (*value, *other))?)),
        (Kind::Record { fields: ws, .. }, Kind::Record { fields: rs, .. }) => {
            field_pairs(alloc, ws, rs)
        }
        (
            Kind::Enum { symbols, .. },
            Kind::Enum {
                symbols: theirs,
                default,
                ..
            },
        ) if some_missing(theirs, *default, symbols.as_slice()) => Ok(None),
        _ => Ok(Some(Vec::new(alloc))),
    }
}

/// Returns the pairs that a pair leads to; `None` where the pair mismatches whatever the datum, or for some symbol.
#[tactic(auto, unfolding(crate::specs::NextPairs::is_bad, crate::specs::NextPairs::next_pairs))]
fn next_pairs(
    alloc: Global,
    w: &Nodes,
    wn: usize,
    r: &Nodes,
    rn: usize,
) -> Result<Option<Vec<(usize, usize)>>, AllocError>
    requires writer { wn < length w.now }
    requires reader { rn < length r.now }
    ensures pairs { IfOk result (λ o. option_map (λ v. v.items) o
        ≡ unless (is_bad w.now r.now (wn, rn)) (next_pairs w.now r.now (wn, rn))) }
    ensures within { IfOk result (λ o. IfSome o (λ v. AreWithin (length w.now) (length r.now) v.items)) }
{
    match w.kind(wn) {
        Kind::Union(members) => Ok(Some(member_pairs(alloc, members, rn)?)),
        _ => match place_of(w, wn, r, rn) {
            Destination::Straight => part_pairs(alloc, w, wn, r, rn),
            Destination::IntoMember { node, .. } => Ok(Some(one_pair(alloc, (wn, node))?)),
            Destination::Nowhere => Ok(None),
            Destination::Unmatched => Ok(None),
        },
    }
}

/// Adds the pairs that are not in the list yet.
fn add_all(pairs: &mut PairList, more: &[(usize, usize)]) -> Result<(), AllocError>
    requires { AreWithin pairs.old.writers pairs.old.readers more.now }
    ensures { OnOk result (AddsAll more.now pairs.old pairs.new) }
{
    for pair in more {
        pairs.add(*pair)?;
    }
    Ok(())
}

/// Returns whether no bad pair of nodes is reached, so that each datum of the writer can be read, but for bytes that
/// are no UTF-8. Each pair of nodes is looked at once, and the fields of two records are matched once there.
pub fn can_read(alloc: Global, writer: &Nodes, reader: &Nodes) -> Result<bool, AllocError>
    ensures { IfOk result (λ yes. IsTrue yes ↔ IsSafe writer.now reader.now) }
{
    writer.is_well_formed(); // law
    reader.is_well_formed(); // law
    let mut pairs = PairList::new(alloc, writer.len(), reader.len())?;
    pairs.add((0, 0))?;
    let mut place = 0;
    while place < pairs.len() {
        let (wn, rn) = pairs.get(place);
        let Some(next) = next_pairs(alloc, writer, wn, reader, rn)? else {
            return Ok(false);
        };
        add_all(&mut pairs, &next)?;
        place += 1;
    }
    Ok(true)
}
