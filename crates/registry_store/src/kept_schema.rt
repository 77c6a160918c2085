//! A schema that a store has for an id of an upstream registry.

ghost use Rattle.std.specs.Prelude.{◌≡◌, ◌≢◌, ℕ, List, IfErr, IfNone, IfOk, IfSome};
ghost use Rattle.registry_store.specs.Store.{commands_of};
ghost use Rattle.registry_store.specs.Stored.{Registered, stored_of};
ghost use Rattle.registry_store.specs.Schemas.{HasReadCause, registration, registrations};

use crate::stored::StoredCommand;
use crate::upstream_fault::UpstreamStoreFault;
use std::alloc::Global;

/// A schema that a store has: the id of the upstream registry that names it, and its text as that registry answered
/// it.
#[derive(Debug, Drop)]
pub struct KeptSchema {
    pub id: u32,
    pub text: String,
}

/// Returns the schema of a command. None where the command is no registration of the registry of this URL.
fn schema_of(command: StoredCommand, url: &str) -> Option<KeptSchema>
    ensures schema { IfSome result (λ schema. stored_of command ≡ registration url.now schema) }
    ensures other { IfNone result ((id : ℕ) (text : List ℕ) → stored_of command ≢ Registered id url.now text) }
{
    match command {
        StoredCommand::Registration { id, subject, text } => {
            if subject.as_str() == url {
                Some(KeptSchema { id, text })
            } else {
                None
            }
        }
        StoredCommand::Level { .. } => None,
    }
}

/// Returns the schemas of commands, each of which is a registration of the registry of this URL; or the number of the
/// first that is none, from 1.
pub(crate) fn schemas_in(
    alloc: Global,
    commands: Vec<StoredCommand>,
    url: &str,
) -> Result<Vec<KeptSchema>, UpstreamStoreFault>
    ensures schemas { IfOk result (λ schemas. commands_of commands.items ≡ registrations url.now schemas.items) }
    ensures why { IfErr result (HasReadCause url.now (commands_of commands.items)) }
{
    let mut schemas = Vec::new(alloc);
    for command in commands {
        let number = schemas.len() + 1;
        match schema_of(command, url) {
            Some(schema) => schemas.push(schema)?,
            None => return Err(UpstreamStoreFault::OtherRegistry { number }),
        }
    }
    Ok(schemas)
}
