//! A pair of schemas whose statements are made.

use avro_types::Nodes;
use std::alloc::Global;

/// A pair of schemas whose statements are made, and where these are kept.
#[derive(Clone, Copy)]
pub(crate) struct SchemaPair<'a> {
    pub(crate) alloc: Global,
    pub(crate) writer: &'a Nodes,
    pub(crate) reader: &'a Nodes,
}
