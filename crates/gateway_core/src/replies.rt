//! Replies and refusals of the registry as answers.

ghost use Rattle.std.specs.Prelude.{◌≡◌, IfOk, string_bytes};
ghost use Rattle.serde_json.specs.Written.{compact_text};
ghost use Rattle.spec_registry.specs.Command.{Command};
ghost use Rattle.schema_registry.specs.Reply.{reply_of};
ghost use Rattle.gateway_core.specs.Replies.{SetsLevel};
ghost use Rattle.spec_service.specs.RegistryReplies.{fault_of, reply_data};

use avro_schema_names::SchemaError;
use gateway_requests::{
    Fault, compatibility_text, entry_text, id_text, level_text, names_text, new_level_text,
    numbers_text, schema_text,
};
use schema_registry::{Refusal, Reply};
use std::alloc::{AllocError, Global};

/// Returns the fault that reports a refusal.
pub(crate) fn fault_of(refusal: Refusal) -> Fault
    ensures { result ≡ fault_of refusal }
{
    match refusal {
        Refusal::BadSubject => Fault::BadSubject,
        Refusal::BadVersion => Fault::BadVersion,
        Refusal::BadSchema(SchemaError::NoMemory) => Fault::NoMemory,
        Refusal::BadSchema(error) => Fault::BadSchema(error),
        Refusal::BadLevel => Fault::BadLevel,
        Refusal::NoSubject => Fault::NoSubject,
        Refusal::NoVersion => Fault::NoVersion,
        Refusal::NoSchema => Fault::NoSchema,
        Refusal::Incompatible => Fault::Incompatible,
        Refusal::Full => Fault::Full,
        Refusal::Clash => Fault::Clash,
        Refusal::NotStored => Fault::NotStored,
        Refusal::NoMemory => Fault::NoMemory,
    }
}

/// Returns the JSON text of a reply. `is_set` says that a level was set, and not asked for.
pub(crate) fn reply_text(alloc: Global, is_set: bool, reply: &Reply) -> Result<String, AllocError>
    ensures { (c : Command) → SetsLevel c is_set
        → IfOk result (λ text. string_bytes text ≡ compact_text (reply_data c (reply_of reply.now))) }
{
    match reply {
        Reply::Id(id) => id_text(alloc, *id),
        Reply::Entry {
            subject,
            version,
            id,
            text,
        } => { entry_text(alloc, *id, text.as_str(), subject.as_str(), *version) }
        Reply::Compatible(is_compatible) => compatibility_text(alloc, *is_compatible),
        Reply::Numbers(numbers) => numbers_text(alloc, numbers),
        Reply::Names(names) => names_text(alloc, names),
        Reply::Text(text) => schema_text(alloc, text.as_str()),
        Reply::LevelIs(level) => {
            if is_set {
                new_level_text(alloc, level.name())
            } else {
                level_text(alloc, level.name())
            }
        }
    }
}
