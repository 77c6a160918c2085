//! Edge: HTTP.
//!
//! Bytes moved once, from a reader into memory and from memory to a writer; and messages in the wire format of the
//! registry: a magic byte, the id of the schema that wrote the payload, the payload.
#![tactic(auto)]

mod laws;
mod message;

pub use laws::envelopes_have_one_id_and_payload;
pub use message::{
    EnvelopeError, Message, PREFIX_LENGTH, open_envelope, put_envelope, read_more, write_more,
};
