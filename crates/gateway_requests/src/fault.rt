//! The texts of faults.

ghost use Rattle.std.specs.Prelude.{◌≡◌, IfOk, string_bytes};
ghost use Rattle.gateway_requests.specs.Fault.{HasFixedText};
ghost use Rattle.spec_service.specs.Fault.{message_of};
ghost use Rattle.spec_service.specs.declared.fault.Fault.TheVariants.{BadEnvelope, BadSchema, Malformed, Mismatch as MismatchFault, Upstream};

use avro_bytes::{MalformedKind, Mismatch};
use avro_schema_names::SchemaError;
pub use spec_service::Fault;
use spec_service::UpstreamFault;
use std::alloc::{AllocError, Global};
use wire_frames::EnvelopeError;

/// Returns the text of a fault. The error is that memory ran out.
pub fn fault_message(alloc: Global, fault: Fault) -> Result<String, AllocError>
    ensures { IfOk result (λ text. string_bytes text ≡ message_of fault) }
{
    match fault {
        Fault::BadSchema(error) => bad_schema_message(alloc, error),
        Fault::Malformed { kind, at } => malformed_message(alloc, kind, at),
        Fault::Mismatch(mismatch) => mismatch_message(alloc, mismatch),
        Fault::BadEnvelope(error) => bad_envelope_message(alloc, error),
        Fault::Upstream(why) => upstream_message(alloc, why),
        other => String::from_str(alloc, fixed_message(other)),
    }
}

/// Returns the text of a fault that has no parts; empty for the others.
fn fixed_message(fault: Fault) -> &'static str
    ensures { HasFixedText fault → result.now ≡ message_of fault }
{
    match fault {
        Fault::BadRequest => "bad request",
        Fault::NoRoute => "no such route",
        Fault::NotAllowed => "method not allowed",
        Fault::NoSubject => "subject not found",
        Fault::NoVersion => "version not found",
        Fault::NoSchema => "schema not found",
        Fault::Incompatible => "incompatible schema",
        Fault::TooLarge => "too large",
        Fault::UnknownCoding => "unknown transfer coding",
        Fault::BadBody => "invalid schema: Body",
        Fault::NotAvro => "invalid schema: NotAvro",
        Fault::HasReferences => "invalid schema: References",
        Fault::BadVersion => "invalid version",
        Fault::BadLevel => "invalid level",
        Fault::BadSubject => "invalid subject",
        Fault::OutputTooLarge => "output too large",
        Fault::ProgramTooLarge => "program too large",
        Fault::Clash => "clash",
        Fault::NoMemory => "no memory",
        Fault::Full => "full",
        Fault::NotFinished => "not finished",
        Fault::NotStored => "not stored",
        Fault::Elsewhere => "no such route: ask the upstream registry",
        Fault::BadSchema(_)
        | Fault::Malformed { .. }
        | Fault::Mismatch(_)
        | Fault::BadEnvelope(_)
        | Fault::Upstream(_) => "",
    }
}

fn bad_schema_message(alloc: Global, error: SchemaError) -> Result<String, AllocError>
    ensures { IfOk result (λ text. string_bytes text ≡ message_of (BadSchema error)) }
{
    let name = error.name();
    Ok(format!(in alloc; "invalid schema: {name}")?)
}

fn malformed_message(alloc: Global, kind: MalformedKind, at: usize) -> Result<String, AllocError>
    ensures { IfOk result (λ text. string_bytes text ≡ message_of (Malformed kind at)) }
{
    let name = kind.name();
    Ok(format!(in alloc; "malformed {name} at {at}")?)
}

fn mismatch_message(alloc: Global, mismatch: Mismatch) -> Result<String, AllocError>
    ensures { IfOk result (λ text. string_bytes text ≡ message_of (MismatchFault mismatch)) }
{
    let name = mismatch.kind.name();
    let writer = mismatch.writer_node;
    let reader = mismatch.reader_node;
    Ok(format!(in alloc; "mismatch {name} {writer} {reader}")?)
}

fn bad_envelope_message(alloc: Global, error: EnvelopeError) -> Result<String, AllocError>
    ensures { IfOk result (λ text. string_bytes text ≡ message_of (BadEnvelope error)) }
{
    let name = error.name();
    Ok(format!(in alloc; "bad envelope: {name}")?)
}

fn upstream_message(alloc: Global, fault: UpstreamFault) -> Result<String, AllocError>
    ensures { IfOk result (λ text. string_bytes text ≡ message_of (Upstream fault)) }
{
    let name = fault.name();
    Ok(format!(in alloc; "upstream registry: {name}")?)
}
