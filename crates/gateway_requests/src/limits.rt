//! The limits of a request's head and body, which are this project's own.

ghost use Rattle.std.specs.Prelude.{◌≡◌, ◌+◌};
ghost use Rattle.spec_avro.specs.declared.limits.TheConstants.{MOST_PAYLOAD};
ghost use Rattle.spec_registry.specs.declared.envelope.TheConstants.{PREFIX_LENGTH};

pub use spec_service::{MOST_BODY, MOST_FIELDS, MOST_HEAD, MOST_TRIES};

/// The law of what the limits are: the longest body is the message of the longest payload, so no payload of a message
/// is too long.
pub fn limits_are_these()
    ensures head { MOST_HEAD ≡ 16384 }
    ensures fields { MOST_FIELDS ≡ 64 }
    ensures tries { MOST_TRIES ≡ 1024 }
    ensures body { MOST_BODY ≡ 16777221 }
    ensures message { MOST_BODY ≡ PREFIX_LENGTH + MOST_PAYLOAD }
{}
