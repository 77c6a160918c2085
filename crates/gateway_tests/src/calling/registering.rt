//! A caller of `schema_registry`.

ghost use Rattle.std.specs.Prelude.{◌≡◌, IfOk, string_bytes};
ghost use Rattle.spec_registry.specs.Accepting.{compacted};

use schema_registry::{Refusal, SharedRegistry};
use std::sync::Wait;

/// Registers the schema of a text as a version of a subject. Returns the text that the registry shows for it from then
/// on, under its id and to each thread: the compact one. The error says why the registry refuses it.
pub fn registered_text<'r, R: Wait>(
    rt: &R,
    registry: &'r SharedRegistry,
    subject: String,
    text: String,
) -> Result<&'r str, Refusal>
    ensures { IfOk result (λ shown. shown.now ≡ compacted (string_bytes text)) }
{
    let (_id, mut receipt) = registry.register(rt, subject, text)?;
    Ok(registry.schema(&mut receipt).text())
}
