//! Nodes with their paths, and where a value lies.

ghost use Rattle.std.specs.Prelude.{◌≡◌, ◌++◌, IfOk, OnOk};
ghost use Rattle.avro_schema_paths.specs.Adds.{Adds, IsThis};

use crate::step::Step;
use std::alloc::{AllocError, Global};

/// A node's number, and the path to the value that declares it.
#[derive(Debug, Drop)]
pub struct NodePath {
    pub node: usize,
    pub path: Vec<Step>,
}

/// Where a value lies: its own path, and the path of the outermost object that wraps it, which is its own where none
/// does.
#[derive(Clone, Copy, Debug)]
pub struct Place<'a> {
    pub outer: &'a [Step],
    pub path: &'a [Step],
}

/// Returns a path with more steps at its end.
pub(crate) fn longer(alloc: Global, path: &[Step], more: &[Step]) -> Result<Vec<Step>, AllocError>
    ensures { IfOk result (λ steps. steps.items ≡ path.now ++ more.now) }
{
    path.iter()
        .copied()
        .chain(more.iter().copied())
        .collect(alloc)
}

/// Adds a node with its path.
pub(crate) fn add_node(
    alloc: Global,
    node: usize,
    path: &[Step],
    out: &mut Vec<NodePath>,
) -> Result<(), AllocError>
    ensures { OnOk result (Adds (IsThis node path.now) out.old.items out.new.items) }
{
    let path = longer(alloc, path, &[])?;
    out.push(NodePath { node, path })?;
    Ok(())
}
