//! The faults of requests: code and status of each.

ghost use Rattle.std.specs.Prelude.{◌≡◌};
ghost use Rattle.spec_service.specs.Fault.{code_of, status_of};
ghost use Rattle.spec_service.specs.declared.fault.Fault.TheVariants.{BadEnvelope, BadSchema, Malformed, Upstream};

use crate::status::Status;
use crate::upstream_fault::UpstreamFault;
use spec_avro::{MalformedKind, Mismatch};
use spec_registry::EnvelopeError;
use spec_schema::SchemaError;
use std::alloc::{AllocError, AllocFailed};

/// Why a request is answered with a fault.
#[derive(Clone, Copy, Debug, PartialEq, Eq)]
pub enum Fault {
    /// The bytes are no request within the limits, or the body is cut short or no JSON object.
    BadRequest,
    /// The path has no route.
    NoRoute,
    /// The route has no such method.
    NotAllowed,
    NoSubject,
    NoVersion,
    NoSchema,
    /// The level of the subject refuses the schema.
    Incompatible,
    /// The body passes its limit.
    TooLarge,
    /// The body has a transfer coding other than `chunked`.
    UnknownCoding,
    /// The body's JSON object has no text of an Avro schema without references.
    BadBody,
    /// The text in the body is no schema.
    BadSchema(SchemaError),
    /// The upstream registry has a schema of another language than Avro under the id.
    NotAvro,
    /// The upstream registry's schema of the id refers to others.
    HasReferences,
    BadVersion,
    BadLevel,
    BadSubject,
    /// The payload is no datum of the writer's schema: the kind of its first fault, and the number of bytes before
    /// it.
    Malformed { kind: MalformedKind, at: usize },
    /// The payload's datum does not fit the reader's schema.
    Mismatch(Mismatch),
    /// The answer would pass its limit.
    OutputTooLarge,
    /// The body is no message in the wire format.
    BadEnvelope(EnvelopeError),
    /// The program of the two schemas would pass a limit.
    ProgramTooLarge,
    /// A cell that is written once shows another value than the one that belongs there.
    Clash,
    NoMemory,
    /// A limit of the registry, or all sessions are taken.
    Full,
    /// The session was abandoned before it ended.
    NotFinished,
    /// The command would be accepted, and could not be written to the store of the registry.
    NotStored,
    /// The route is one of the upstream registry, which this service does not answer for.
    Elsewhere,
    /// The schema of an id is not held, and the upstream registry could not be asked for it.
    Upstream(UpstreamFault),
}

impl Fault {
    /// Returns the code in its answer: the status, or the status followed by two digits (Confluent Schema Registry
    /// API).
    pub fn code(self) -> u32
        ensures { result ≡ code_of self }
    {
        match self {
            Fault::BadRequest => 400,
            Fault::NoRoute | Fault::Elsewhere => 404,
            Fault::NotAllowed => 405,
            Fault::NoSubject => 40401,
            Fault::NoVersion => 40402,
            Fault::NoSchema => 40403,
            Fault::Incompatible => 409,
            Fault::TooLarge => 41301,
            Fault::UnknownCoding => 501,
            Fault::BadBody | Fault::BadSchema(_) | Fault::NotAvro | Fault::HasReferences => 42201,
            Fault::BadVersion => 42202,
            Fault::BadLevel => 42203,
            Fault::Malformed { .. } => 42250,
            Fault::Mismatch(_) => 42251,
            Fault::OutputTooLarge => 42252,
            Fault::BadEnvelope(_) => 42253,
            Fault::ProgramTooLarge => 42254,
            Fault::BadSubject => 42261,
            Fault::Clash => 50001,
            Fault::NoMemory => 50301,
            Fault::Full => 50302,
            Fault::NotFinished => 50303,
            Fault::NotStored => 50304,
            Fault::Upstream(_) => 50305,
        }
    }

    /// Returns the status of its answer.
    pub fn status(self) -> Status
        ensures { result ≡ status_of self }
    {
        match self {
            Fault::BadRequest => Status::BadRequest,
            Fault::NoRoute
            | Fault::NoSubject
            | Fault::NoVersion
            | Fault::NoSchema
            | Fault::Elsewhere => Status::NotFound,
            Fault::NotAllowed => Status::MethodNotAllowed,
            Fault::Incompatible => Status::Conflict,
            Fault::TooLarge => Status::PayloadTooLarge,
            Fault::UnknownCoding => Status::NotImplemented,
            Fault::BadBody
            | Fault::BadSchema(_)
            | Fault::NotAvro
            | Fault::HasReferences
            | Fault::BadVersion
            | Fault::BadLevel
            | Fault::BadSubject
            | Fault::Malformed { .. }
            | Fault::Mismatch(_)
            | Fault::OutputTooLarge
            | Fault::BadEnvelope(_)
            | Fault::ProgramTooLarge => Status::UnprocessableEntity,
            Fault::Clash => Status::InternalServerError,
            Fault::NoMemory
            | Fault::Full
            | Fault::NotFinished
            | Fault::NotStored
            | Fault::Upstream(_) => Status::ServiceUnavailable,
        }
    }
}

impl From<AllocError> for Fault {
    ghost use Rattle.std.specs.Prelude.{◌≡◌};
    ghost use Rattle.spec_service.specs.declared.fault.Fault.TheVariants.{NoMemory};

    ghost from_gives = { λ _ e. e ≡ NoMemory };

    fn from(_error: AllocError) -> Fault {
        Fault::NoMemory
    }
}

impl<T: Drop> From<AllocFailed<T>> for Fault {
    ghost use Rattle.std.specs.Prelude.{◌≡◌};
    ghost use Rattle.spec_service.specs.declared.fault.Fault.TheVariants.{NoMemory};

    ghost from_gives = { λ _ e. e ≡ NoMemory };

    fn from(_error: AllocFailed<T>) -> Fault {
        Fault::NoMemory
    }
}
