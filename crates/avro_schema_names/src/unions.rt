//! Which branches of a union are apart.

ghost use Rattle.std.specs.Prelude.{◌≡◌, ◌++◌, ◌∷◌, ◌&&◌, [], map, not, slice_get, true, IfOk, MatchOption};
ghost use Rattle.std.specs.List.{list_any};
ghost use Rattle.avro_schema_names.specs.Draft.{draft_of, drafts_of};
ghost use Rattle.spec_schema.specs.Head.{are_apart, head_at, head_of, heads_of, is_same_type, is_union_head};
ghost use Rattle.avro_schema_names.specs.Head.{is_named_head};
ghost use Rattle.avro_schema_names.specs.Unnamed.{AreNamedMembers, unnamed_head};

use crate::{Draft, Drafts};
use avro_types::Kind;
use std::alloc::{AllocError, Global};
use std::collections::BTreeSet;

/// The type of the nodes that have no name.
#[derive(Clone, Copy)]
pub enum Unnamed {
    Null,
    Boolean,
    Int,
    Long,
    Bytes,
    Text,
    Array,
    Map,
    Union,
}

/// Returns the type of a node, where it has no name; `None` of a fixed, an enum or a record.
fn unnamed_type(draft: &Draft) -> Option<Unnamed>
    ensures { MatchOption result (is_named_head (head_of (draft_of draft.now)) ≡ true)
        (λ one. head_of (draft_of draft.now) ≡ unnamed_head one) }
{
    match draft {
        Draft::Whole(Kind::Null) => Some(Unnamed::Null),
        Draft::Whole(Kind::Boolean) => Some(Unnamed::Boolean),
        Draft::Whole(Kind::Int) => Some(Unnamed::Int),
        Draft::Whole(Kind::Long) => Some(Unnamed::Long),
        Draft::Whole(Kind::Bytes) => Some(Unnamed::Bytes),
        Draft::Whole(Kind::Text) => Some(Unnamed::Text),
        Draft::Whole(Kind::Array(_)) => Some(Unnamed::Array),
        Draft::Whole(Kind::Map(_)) => Some(Unnamed::Map),
        Draft::Whole(Kind::Union(_)) => Some(Unnamed::Union),
        Draft::Whole(Kind::Fixed { .. } | Kind::Enum { .. } | Kind::Record { .. }) => None,
        Draft::Record { .. } => None,
    }
}

/// Returns whether a node is of a type that has no name.
fn is_same_type(one: Unnamed, other: &Draft) -> bool
    ensures { result ≡ is_same_type (unnamed_head one) (head_of (draft_of other.now)) }
{
    match one {
        Unnamed::Null => matches!(other, Draft::Whole(Kind::Null)),
        Unnamed::Boolean => matches!(other, Draft::Whole(Kind::Boolean)),
        Unnamed::Int => matches!(other, Draft::Whole(Kind::Int)),
        Unnamed::Long => matches!(other, Draft::Whole(Kind::Long)),
        Unnamed::Bytes => matches!(other, Draft::Whole(Kind::Bytes)),
        Unnamed::Text => matches!(other, Draft::Whole(Kind::Text)),
        Unnamed::Array => matches!(other, Draft::Whole(Kind::Array(_))),
        Unnamed::Map => matches!(other, Draft::Whole(Kind::Map(_))),
        Unnamed::Union => matches!(other, Draft::Whole(Kind::Union(_))),
    }
}

fn is_union(one: Unnamed) -> bool
    ensures { result ≡ is_union_head (unnamed_head one) }
{
    matches!(one, Unnamed::Union)
}

/// Returns whether the node of a branch is of a type that has no name. A branch without a node counts as a union.
fn is_of_type(member: usize, one: Unnamed, drafts: &[Draft]) -> bool
    ensures { result ≡ is_same_type (unnamed_head one) (head_at (heads_of (drafts_of drafts.now)) member) }
{
    if member >= drafts.len() {
        return is_union(one);
    }
    is_same_type(one, &drafts[member])
}

/// Returns whether one of the branches is of a type that has no name.
fn has_type(members: &[usize], one: Unnamed, drafts: &[Draft]) -> bool
    ensures { result ≡ list_any (λ n. is_same_type (unnamed_head one)
        (head_at (heads_of (drafts_of drafts.now)) n)) members.now }
{
    members
        .iter()
        .any(|member| is_of_type(*member, one, drafts))
}

/// Returns whether a branch is no union, and not of the type of any of the others, and adds its node to `named` if it
/// has a name.
///
/// `named` holds the nodes of the others that have names: a full name is defined once, so that named types are one
/// where they are one node.
fn is_apart(
    member: usize,
    others: &[usize],
    named: &mut BTreeSet<usize>,
    drafts: &Drafts,
) -> Result<bool, AllocError>
    requires { AreNamedMembers named.old others.now (heads_of drafts.now) }
    ensures apart { IfOk result (λ b. b ≡ (not (is_union_head (head_at (heads_of drafts.now) member)) && not
        (list_any (is_same_type (head_at (heads_of drafts.now) member))
        (map (head_at (heads_of drafts.now)) others.now)))) }
    ensures named { IfOk result (λ b. AreNamedMembers named.new (others.now ++ member ∷ []) (heads_of drafts.now)) }
{
    drafts.names_are_apart(); // law
    let nodes = drafts.as_slice();
    let Some(draft) = nodes.get(member) else {
        return Ok(false);
    };
    match unnamed_type(draft) {
        None => Ok(named.insert(member)?),
        Some(one) => Ok(!is_union(one) && !has_type(others, one, nodes)),
    }
}

/// Returns the branch of a union that its defaults are data of: the first.
pub fn default_member(members: &[usize]) -> Option<usize>
    ensures { result ≡ slice_get members.now 0 }
{
    members.first().copied()
}

/// Returns whether no branch is a union, nor of the type of one before it.
pub fn are_apart(alloc: Global, members: &[usize], drafts: &Drafts) -> Result<bool, AllocError>
    ensures { IfOk result (λ b. b ≡ are_apart [] (map (head_at (heads_of drafts.now)) members.now)) }
{
    let mut named = BTreeSet::new(alloc);
    for position in 0..members.len() {
        if !is_apart(members[position], &members[..position], &mut named, drafts)? {
            return Ok(false);
        }
    }
    Ok(true)
}
