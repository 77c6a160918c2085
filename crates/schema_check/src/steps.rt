//! What becomes of a pair of nodes: by which kind it is bad, and which pairs it leads to (Avro 1.11 Specification,
//! "Schema Resolution").

ghost use Rattle.std.specs.Prelude.{◌≡◌, ◌<◌, false, [], ◌∷◌, Some, is_some, length, map, slice_get, IfOk};
ghost use Rattle.avro_types.specs.Node.{fields_of};
ghost use Rattle.spec_avro.specs.Partners.{routes};
ghost use Rattle.resolver.specs.NextPairs.{lacks_field, lacks_symbol, next_pairs, part_pairs, partner_pairs};
ghost use Rattle.resolver.specs.Pairs.{AreWithin};
ghost use Rattle.spec_avro.specs.Resolution.{lacking};
ghost use Rattle.schema_check.specs.BadKinds.{kind_of, straight_kind};

use crate::symbols::some_missing;
use avro_bytes::MismatchKind;
use avro_types::{Field, Kind, Nodes};
use resolver::{Destination, Route, first_lacking, place_of, routes};
use std::alloc::{AllocError, Global};

/// By which kind a pair is bad, if it is, and the pairs that it leads to.
#[derive(Drop)]
pub(crate) struct Step {
    pub(crate) kind: Option<MismatchKind>,
    pub(crate) next: Vec<(usize, usize)>,
}

/// Returns the nodes of the fields that have partners, and theirs.
fn partner_pairs(alloc: Global, routes: &[Route]) -> Result<Vec<(usize, usize)>, AllocError>
    ensures { IfOk result (λ v. v.items ≡ partner_pairs routes.now) }
{
    let mut pairs = Vec::new(alloc);
    for route in routes {
        if let Some(partner) = route.partner {
            pairs.push((route.node, partner.node))?;
        }
    }
    Ok(pairs)
}

/// Returns each member with the reader's node.
fn member_pairs(
    alloc: Global,
    members: &[usize],
    rn: usize,
) -> Result<Vec<(usize, usize)>, AllocError>
    ensures { IfOk result (λ v. v.items ≡ map (λ m. (m, rn)) members.now) }
{
    members.iter().map(|member| (*member, rn)).collect(alloc)
}

/// Returns one pair alone.
fn one_pair(alloc: Global, pair: (usize, usize)) -> Result<Vec<(usize, usize)>, AllocError>
    ensures { IfOk result (λ v. v.items ≡ pair ∷ []) }
{
    let mut pairs = Vec::new(alloc);
    pairs.push(pair)?;
    Ok(pairs)
}

/// Returns the step of two records: bad where a field of the reader has neither a partner nor a default. The fields
/// are matched once.
fn field_step(alloc: Global, ws: &[Field], rs: &[Field]) -> Result<Step, AllocError>
    ensures kind { IfOk result (λ s. s.kind
        ≡ straight_kind (is_some (lacking (fields_of ws.now) (fields_of rs.now))) false) }
    ensures next { IfOk result (λ s. s.next.items ≡ partner_pairs (routes (fields_of ws.now) (fields_of rs.now))) }
{
    let routes = routes(alloc, ws, rs)?;
    let lacking = first_lacking(alloc, &routes, rs)?;
    let next = partner_pairs(alloc, &routes)?;
    match lacking {
        Some(_) => Ok(Step {
            kind: Some(MismatchKind::NoDefault),
            next,
        }),
        None => Ok(Step { kind: None, next }),
    }
}

/// Returns the step of two nodes that match: to their items, values or fields. It is bad where a field of the reader
/// has neither a partner nor a default, or where its enum lacks a symbol and has no default.
fn part_step(alloc: Global, w: &Nodes, wn: usize, r: &Nodes, rn: usize) -> Result<Step, AllocError>
    requires writer { wn < length w.now }
    requires reader { rn < length r.now }
    ensures kind { IfOk result (λ s. s.kind ≡ straight_kind (lacks_field (slice_get w.now wn) (slice_get r.now rn))
        (lacks_symbol (slice_get w.now wn) (slice_get r.now rn))) }
    ensures next { IfOk result (λ s. s.next.items ≡ part_pairs (slice_get w.now wn) (slice_get r.now rn)) }
    ensures within { IfOk result (λ s. AreWithin (length w.now) (length r.now) s.next.items) }
{
    match (w.kind(wn), r.kind(rn)) {
        (Kind::Array(item), Kind::Array(other)) => {
            let next = one_pair(alloc, (*item, *other))?;
            Ok(Step { kind: None, next })
        }
        (Kind::Map(value), Kind::Map(other)) => {
            let next = one_pair(alloc, (*value, *other))?;
            Ok(Step { kind: None, next })
        }
        (Kind::Record { fields: ws, .. }, Kind::Record { fields: rs, .. }) => {
            let step = field_step(alloc, ws, rs)?;
            Ok(step)
        }
        (
            Kind::Enum { symbols, .. },
            Kind::Enum {
                symbols: theirs,
                default,
                ..
            },
        ) if some_missing(theirs, *default, symbols.as_slice()) => Ok(Step {
            kind: Some(MismatchKind::NoSymbol),
            next: Vec::new(alloc),
        }),
        _ => Ok(Step {
            kind: None,
            next: Vec::new(alloc),
        }),
    }
}

/// Returns the step of a pair that goes nowhere, which is bad by this kind.
fn last_step(alloc: Global, kind: MismatchKind) -> Step
    ensures kind { result.kind ≡ Some kind }
    ensures next { result.next.items ≡ [] }
{
    Step {
        kind: Some(kind),
        next: Vec::new(alloc),
    }
}

/// Returns the step of a pair: by which kind it is bad, if it is, and the pairs that it leads to, whether bad or not.
#[tactic(auto, unfolding(crate::specs::BadKinds::kind_of, resolver::specs::NextPairs::next_pairs))]
pub(crate) fn step_of(
    alloc: Global,
    w: &Nodes,
    wn: usize,
    r: &Nodes,
    rn: usize,
) -> Result<Step, AllocError>
    requires writer { wn < length w.now }
    requires reader { rn < length r.now }
    ensures kind { IfOk result (λ s. s.kind ≡ kind_of w.now r.now (wn, rn)) }
    ensures next { IfOk result (λ s. s.next.items ≡ next_pairs w.now r.now (wn, rn)) }
    ensures within { IfOk result (λ s. AreWithin (length w.now) (length r.now) s.next.items) }
{
    match w.kind(wn) {
        Kind::Union(members) => {
            let next = member_pairs(alloc, members, rn)?;
            Ok(Step { kind: None, next })
        }
        _ => match place_of(w, wn, r, rn) {
            Destination::Straight => part_step(alloc, w, wn, r, rn),
            Destination::IntoMember { node, .. } => {
                let next = one_pair(alloc, (wn, node))?;
                Ok(Step { kind: None, next })
            }
            Destination::Nowhere => Ok(last_step(alloc, MismatchKind::NoBranch)),
            Destination::Unmatched => Ok(last_step(alloc, MismatchKind::NoMatch)),
        },
    }
}
