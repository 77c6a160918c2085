//! Which schemas a request needs.

ghost use Rattle.gateway_requests.specs.Request.{request_of};
ghost use Rattle.gateway_upstream.specs.Looking.{Needs, NeedsFor, NeedsNone};

use gateway_requests::{Fault, Request};

/// The ids of the schemas that a request needs before it can be answered.
#[derive(Clone, Copy, Debug, PartialEq, Eq)]
pub struct Needed {
    /// Of the reader, or of the schema that is asked for.
    pub reader: Option<u32>,
    /// Of the writer, where the request is a message.
    pub writer: Option<u32>,
}

/// Returns that no schema is needed.
fn nothing_needed() -> Needed
    ensures { NeedsNone result }
{
    Needed {
        reader: None,
        writer: None,
    }
}

/// Returns the ids of the schemas that are needed for what is asked: none where the answer shows no schema.
fn needed_for(request: &Request) -> Needed
    ensures { NeedsFor (request_of request.now) result }
{
    match request {
        Request::Command(_) => nothing_needed(),
        Request::Registration { .. } => nothing_needed(),
        Request::Schema { id } => Needed {
            reader: Some(*id),
            writer: None,
        },
        Request::Transcoding { reader, message } => Needed {
            reader: Some(*reader),
            writer: message.writer(),
        },
    }
}

/// Returns the ids of the schemas that a request needs: none where it is refused, or where its answer shows no schema.
pub fn needed_by(request: &Result<Request, Fault>) -> Needed
    ensures { Needs request.now result }
{
    match request {
        Ok(request) => needed_for(request),
        Err(_) => nothing_needed(),
    }
}
