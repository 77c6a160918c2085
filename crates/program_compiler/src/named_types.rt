//! The types of a schema by their unqualified names.

ghost use Rattle.std.specs.Prelude.{◌≡◌, ◌==◌, ◌&&◌, ◌||◌, IfOk, OnOk, ℕ, List, Some};
ghost use Rattle.std.specs.Str.{bytes_eq};
ghost use Rattle.spec_avro.specs.Node.{names_of};
ghost use Rattle.avro_types.specs.Node.{node_of};
ghost use Rattle.spec_avro.specs.Symbols.{is_used};
ghost use Rattle.program_compiler.specs.NamedTypes.{AreTypesOf, is_among, last_parts, nodes_under, stands_under, unqualified_names};

use avro_types::{Aliases, Kind, Name, Nodes};
use std::alloc::{AllocError, Global};
use std::collections::BTreeMap;

/// The records, enums and fixed of a schema, found by their unqualified names: each is listed under the last part of
/// its own name and under those of its aliases.
#[derive(Drop)]
pub(crate) struct NamedTypes {
    nodes: BTreeMap<String, Vec<usize>>,
}

impl NamedTypes {
    /// Returns the named types of a schema.
    pub(crate) fn of_nodes(alloc: Global, schema: &Nodes) -> Result<NamedTypes, AllocError>
        ensures { IfOk result (AreTypesOf schema.now) }
    {
        let mut nodes = BTreeMap::new(alloc);
        for node in 0..schema.len() {
            put_kind(alloc, &mut nodes, schema.kind(node), node)?;
        }
        Ok(NamedTypes { nodes })
    }

    /// Returns the nodes that have an unqualified name.
    pub(crate) fn of_name(&self, last: &str) -> &[usize]
        ensures { result.now ≡ nodes_under self.now.nodes last.now }
    {
        match self.nodes.get(last) {
            Some(nodes) => nodes.as_slice(),
            None => &[],
        }
    }
}

/// Appends a node, unless it is the last of the nodes.
fn put_last(nodes: &mut Vec<usize>, node: usize) -> Result<(), AllocError>
    ensures { (n : ℕ) → OnOk result (is_among n nodes.new.items ≡ ((n == node) || is_among n nodes.old.items)) }
{
    if nodes.last().copied() == Some(node) {
        return Ok(());
    }
    nodes.push(node)?;
    Ok(())
}

/// Adds a node under an unqualified name.
fn put(
    alloc: Global,
    nodes: &mut BTreeMap<String, Vec<usize>>,
    last: &str,
    node: usize,
) -> Result<(), AllocError>
    ensures { (name : List ℕ) (n : ℕ) → OnOk result (stands_under nodes.new name n
        ≡ (((n == node) && bytes_eq last.now name) || stands_under nodes.old name n)) }
{
    let own = nodes.entry(String::from_str(alloc, last)?)?.or_default();
    put_last(own, node)
}

/// Adds a node under the last part of its name and under those of its aliases.
fn put_names(
    alloc: Global,
    nodes: &mut BTreeMap<String, Vec<usize>>,
    name: &Name,
    aliases: &Aliases,
    node: usize,
) -> Result<(), AllocError>
    ensures { (last : List ℕ) (n : ℕ) → OnOk result (stands_under nodes.new last n
        ≡ (((n == node) && is_used last (last_parts (names_of name.now aliases.now)))
        || stands_under nodes.old last n)) }
{
    put(alloc, nodes, name.last(), node)?;
    for position in 0..aliases.len() {
        if let Some(last) = aliases.last(position) {
            put(alloc, nodes, last, node)?;
        }
    }
    Ok(())
}

/// Adds a node under its unqualified names, if it is a record, an enum or a fixed.
fn put_kind(
    alloc: Global,
    nodes: &mut BTreeMap<String, Vec<usize>>,
    kind: &Kind,
    node: usize,
) -> Result<(), AllocError>
    ensures { (last : List ℕ) (n : ℕ) → OnOk result (stands_under nodes.new last n
        ≡ (((n == node) && is_used last (unqualified_names (Some (node_of kind.now))))
        || stands_under nodes.old last n)) }
{
    match kind {
        Kind::Fixed { name, aliases, .. }
        | Kind::Enum { name, aliases, .. }
        | Kind::Record { name, aliases, .. } => put_names(alloc, nodes, name, aliases, node),
        _ => Ok(()),
    }
}
