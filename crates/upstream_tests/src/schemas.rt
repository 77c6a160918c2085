//! Tests of `upstream_schemas`: the schemas that are held, and why none is.

mod faults;
mod findings;

use crate::listed_upstream::ListedUpstream;
use gateway_requests::Fault;
use schema_registry::SharedRegistry;
use std::alloc::AllocError;
use upstream_schemas::FoundSchema;

/// Appends what was found: the id of the naming, the id that the schema has in this process, and the schema's text.
fn push_schema(
    text: &mut String,
    registry: &SharedRegistry,
    found: FoundSchema<ListedUpstream>,
) -> Result<(), AllocError> {
    let (id, local) = (found.named.id(), found.receipt.id());
    match registry.find(local) {
        Some((schema, _receipt)) => {
            let shown = schema.text();
            write!(text, "{id} as {local}, {shown}")
        }
        None => write!(text, "{id} as {local}, which is none"),
    }
}

/// Appends what was found, or that nothing was.
fn push_seen(
    text: &mut String,
    registry: &SharedRegistry,
    found: Option<FoundSchema<ListedUpstream>>,
) -> Result<(), AllocError> {
    match found {
        Some(found) => push_schema(text, registry, found),
        None => text.push_str("none"),
    }
}

/// Appends what came of an id that was asked for.
fn push_asked(
    text: &mut String,
    registry: &SharedRegistry,
    asked: Result<FoundSchema<ListedUpstream>, Fault>,
) -> Result<(), AllocError> {
    match asked {
        Ok(found) => push_schema(text, registry, found),
        Err(fault) => write!(text, "{fault:?}"),
    }
}
