//! Resolving a datum of the writer's for the reader.

ghost use Rattle.std.specs.Prelude.{◌≡◌, ◌<◌, length, IfOk, IfSome, option_map};
ghost use Rattle.spec_avro.specs.Datum.{ArrayDatum, MapDatum, RecordDatum};
ghost use Rattle.avro_types.specs.Datum.{data_of, datum_of, pairs_of};
ghost use Rattle.spec_avro.specs.Matching.{place};
ghost use Rattle.resolver.specs.Partners.{AreRoutes};
ghost use Rattle.resolver.specs.Steps.{inside, one_field, placed_value, slots_of};
ghost use Rattle.resolver.specs.Resolution.{Resolves};
ghost use Rattle.spec_avro.specs.Resolution.{placed, resolved, resolved_fields, resolved_items, resolved_values};

use crate::fields::{empty_slots, field_lists, fill, first_lacking, keep};
use crate::leaves::{bytes_for, enum_for, int_for, text_for};
use crate::mismatch::{ResolveError, mismatched};
use crate::unions::member_of;
use crate::{Destination, Route, both_items, both_values, place_of, routes};
use avro_bytes::MismatchKind;
use avro_types::{Datum, Nodes};
use std::alloc::Global;

/// Resolves a datum of a writer's node for a reader's node. A writer's union is resolved first, by its branch.
#[tactic(auto, unfolding(spec_avro::specs::Resolution::resolved))]
#[cycle(resolve)]
fn resolve_at(
    alloc: Global,
    w: &Nodes,
    wn: usize,
    r: &Nodes,
    rn: usize,
    datum: Datum,
) -> Result<Datum, ResolveError>
    requires writer { wn < length w.now }
    requires reader { rn < length r.now }
    ensures { Resolves datum_of result (resolved w.now r.now wn rn (datum_of datum)) }
{
    match datum {
        Datum::Union(position, inner) => match member_of(w, wn, position) {
            Some(member) => resolve_at(alloc, w, member, r, rn, Box::into_inner(inner)),
            None => Err(mismatched(MismatchKind::NoMatch, wn, rn)),
        },
        datum => resolve_placed(alloc, w, wn, r, rn, datum),
    }
}

/// Resolves a datum that is not a union's: into the reader's node itself, or into the branch of its union that
/// matches.
#[cycle(resolve)]
fn resolve_placed(
    alloc: Global,
    w: &Nodes,
    wn: usize,
    r: &Nodes,
    rn: usize,
    datum: Datum,
) -> Result<Datum, ResolveError>
    requires writer { wn < length w.now }
    requires reader { rn < length r.now }
    ensures { Resolves datum_of result
        (placed (place w.now r.now wn rn) wn rn (λ node. inside w.now r.now wn node (datum_of datum))) }
{
    match place_of(w, wn, r, rn) {
        Destination::Straight => resolve_inside(alloc, w, wn, r, rn, datum),
        Destination::IntoMember { position, node } => {
            let inner = resolve_inside(alloc, w, wn, r, node, datum)?;
            let inner = Box::new(alloc, inner)?;
            Ok(Datum::Union(position, inner))
        }
        Destination::Nowhere => Err(mismatched(MismatchKind::NoBranch, wn, rn)),
        Destination::Unmatched => Err(mismatched(MismatchKind::NoMatch, wn, rn)),
    }
}

/// Resolves a datum into the reader's node itself.
#[tactic(auto, unfolding(crate::specs::Steps::inside))]
#[cycle(resolve)]
fn resolve_inside(
    alloc: Global,
    w: &Nodes,
    wn: usize,
    r: &Nodes,
    rn: usize,
    datum: Datum,
) -> Result<Datum, ResolveError>
    requires writer { wn < length w.now }
    requires reader { rn < length r.now }
    ensures { Resolves datum_of result (inside w.now r.now wn rn (datum_of datum)) }
{
    match datum {
        Datum::Null => Ok(Datum::Null),
        Datum::Boolean(b) => Ok(Datum::Boolean(b)),
        Datum::Int(n) => Ok(int_for(r, rn, n)),
        Datum::Long(n) => Ok(Datum::Long(n)),
        Datum::Bytes(bytes) => bytes_for(wn, r, rn, bytes),
        Datum::Text(text) => Ok(text_for(r, rn, text)),
        Datum::Fixed(bytes) => Ok(Datum::Fixed(bytes)),
        Datum::Enum(position) => enum_for(w, wn, r, rn, position),
        Datum::Array(items) => resolve_array(alloc, items, w, wn, r, rn),
        Datum::Map(pairs) => resolve_map(alloc, pairs, w, wn, r, rn),
        Datum::Record(fields) => resolve_record(alloc, fields, w, wn, r, rn),
        Datum::Union(_, _) => Err(mismatched(MismatchKind::NoMatch, wn, rn)),
    }
}

/// Resolves a writer's array into a reader's.
#[tactic(auto, unfolding(crate::specs::Steps::inside))]
#[cycle(resolve)]
fn resolve_array(
    alloc: Global,
    items: Vec<Datum>,
    w: &Nodes,
    wn: usize,
    r: &Nodes,
    rn: usize,
) -> Result<Datum, ResolveError>
    requires writer { wn < length w.now }
    requires reader { rn < length r.now }
    ensures { Resolves datum_of result (inside w.now r.now wn rn (ArrayDatum (data_of items.items))) }
{
    let Some((item, other)) = both_items(w, wn, r, rn) else {
        return Err(mismatched(MismatchKind::NoMatch, wn, rn));
    };
    let all = resolve_items(alloc, items, w, item, r, other)?;
    Ok(Datum::Array(all))
}

/// Resolves the items of an array, in order.
#[cycle(resolve)]
fn resolve_items(
    alloc: Global,
    items: Vec<Datum>,
    w: &Nodes,
    wn: usize,
    r: &Nodes,
    rn: usize,
) -> Result<Vec<Datum>, ResolveError>
    requires writer { wn < length w.now }
    requires reader { rn < length r.now }
    ensures { Resolves (λ v. data_of v.items) result (resolved_items w.now r.now wn rn (data_of items.items)) }
{
    let mut all = Vec::new(alloc);
    for item in items {
        let datum = resolve_at(alloc, w, wn, r, rn, item)?;
        all.push(datum)?;
    }
    Ok(all)
}

/// Resolves a writer's map into a reader's.
#[tactic(auto, unfolding(crate::specs::Steps::inside))]
#[cycle(resolve)]
fn resolve_map(
    alloc: Global,
    pairs: Vec<(String, Datum)>,
    w: &Nodes,
    wn: usize,
    r: &Nodes,
    rn: usize,
) -> Result<Datum, ResolveError>
    requires writer { wn < length w.now }
    requires reader { rn < length r.now }
    ensures { Resolves datum_of result (inside w.now r.now wn rn (MapDatum (pairs_of pairs.items))) }
{
    let Some((value, other)) = both_values(w, wn, r, rn) else {
        return Err(mismatched(MismatchKind::NoMatch, wn, rn));
    };
    let all = resolve_values(alloc, pairs, w, value, r, other)?;
    Ok(Datum::Map(all))
}

/// Resolves the values of a map, in order, each under its key.
#[cycle(resolve)]
fn resolve_values(
    alloc: Global,
    pairs: Vec<(String, Datum)>,
    w: &Nodes,
    wn: usize,
    r: &Nodes,
    rn: usize,
) -> Result<Vec<(String, Datum)>, ResolveError>
    requires writer { wn < length w.now }
    requires reader { rn < length r.now }
    ensures { Resolves (λ v. pairs_of v.items) result (resolved_values w.now r.now wn rn (pairs_of pairs.items)) }
{
    let mut all = Vec::new(alloc);
    for pair in pairs {
        let resolved = resolve_value(alloc, pair, w, wn, r, rn)?;
        all.push(resolved)?;
    }
    Ok(all)
}

/// Resolves the value of a pair and keeps its key.
#[cycle(resolve)]
fn resolve_value(
    alloc: Global,
    pair: (String, Datum),
    w: &Nodes,
    wn: usize,
    r: &Nodes,
    rn: usize,
) -> Result<(String, Datum), ResolveError>
    requires writer { wn < length w.now }
    requires reader { rn < length r.now }
    ensures value { Resolves (λ p. datum_of p.1) result (resolved w.now r.now wn rn (datum_of pair.1)) }
    ensures key { IfOk result (λ p. p.0 ≡ pair.0) }
{
    let (key, value) = pair;
    let datum = resolve_at(alloc, w, wn, r, rn, value)?;
    Ok((key, datum))
}

/// Resolves a writer's record into a reader's.
#[tactic(auto, unfolding(crate::specs::Steps::inside))]
#[cycle(resolve)]
fn resolve_record(
    alloc: Global,
    fields: Vec<Datum>,
    w: &Nodes,
    wn: usize,
    r: &Nodes,
    rn: usize,
) -> Result<Datum, ResolveError>
    requires writer { wn < length w.now }
    requires reader { rn < length r.now }
    ensures { Resolves datum_of result (inside w.now r.now wn rn (RecordDatum (data_of fields.items))) }
{
    let Some((ws, rs)) = field_lists(w, wn, r, rn) else {
        return Err(mismatched(MismatchKind::NoMatch, wn, rn));
    };
    let routes = routes(alloc, ws, rs)?;
    let lacking = first_lacking(alloc, &routes, rs)?;
    if let Some(field) = lacking {
        return Err(mismatched(MismatchKind::NoDefault, wn, field.node));
    }
    let empty = empty_slots(alloc, rs)?;
    let slots = resolve_fields(alloc, fields, w, &routes, r, empty)?;
    let all = fill(alloc, rs, slots)?;
    Ok(Datum::Record(all))
}

/// Resolves the writer's fields in order, each into its partner's slot.
#[cycle(resolve)]
fn resolve_fields(
    alloc: Global,
    fields: Vec<Datum>,
    w: &Nodes,
    routes: &[Route],
    r: &Nodes,
    slots: Vec<Option<Datum>>,
) -> Result<Vec<Option<Datum>>, ResolveError>
    requires { AreRoutes (length w.now) (length r.now) (length slots.items) routes.now }
    ensures { Resolves (λ v. slots_of v.items) result
        (resolved_fields w.now r.now (slots_of slots.items) routes.now (data_of fields.items)) }
{
    let mut slots = slots;
    for (route, datum) in routes.iter().zip(fields) {
        let value = resolve_field(alloc, datum, w, route, r)?;
        slots = keep(slots, value);
    }
    Ok(slots)
}

/// Resolves a field into its partner and returns the value with the partner's index; `None` where it has no partner.
#[cycle(resolve)]
fn resolve_field(
    alloc: Global,
    datum: Datum,
    w: &Nodes,
    route: &Route,
    r: &Nodes,
) -> Result<Option<(usize, Datum)>, ResolveError>
    requires writer { route.now.node < length w.now }
    requires reader { IfSome route.now.partner (λ p. p.node < length r.now) }
    ensures value { Resolves (option_map placed_value) result (one_field w.now r.now route.now (datum_of datum)) }
    ensures position { IfOk result (λ o. IfSome o (λ v. IfSome route.now.partner (λ p. v.0 ≡ p.position))) }
{
    match route.partner {
        Some(partner) => {
            let value = resolve_at(alloc, w, route.node, r, partner.node, datum)?;
            Ok(Some((partner.position, value)))
        }
        None => Ok(None),
    }
}

/// Resolves a datum of the writer's schema for the reader's (Avro 1.11, "Schema Resolution").
///
/// Returns the first mismatch in the order of the datum, with the numbers of both nodes, where there is one.
pub fn resolve(
    alloc: Global,
    writer: &Nodes,
    reader: &Nodes,
    datum: Datum,
) -> Result<Datum, ResolveError>
    ensures { Resolves datum_of result (resolved writer.now reader.now 0 0 (datum_of datum)) }
{
    writer.is_well_formed(); // law
    reader.is_well_formed(); // law
    resolve_at(alloc, writer, 0, reader, 0, datum)
}
