//! The answer to a request whose schemas were looked up.

ghost use Rattle.std.specs.Prelude.{◌≡◌, ◌++◌, ℕ, IfOk, List, Option, Result};
ghost use Rattle.spec_service.specs.Request.{Request as Asked};
ghost use Rattle.gateway_requests.specs.Request.{request_of};
ghost use Rattle.gateway_requests.specs.Sizes.{IsWithin};
ghost use Rattle.gateway_requests.specs.Steps.{Tells};
ghost use Rattle.spec_service.specs.declared.limits.TheConstants.{MOST_BODY};
ghost use Rattle.session_pool.specs.Seats.{Rests};
ghost use Rattle.gateway_core.specs.Gates.{SaidNo};
ghost use Rattle.spec_service.specs.NamedServing.{IsNamedReply, IsNamedReplyTo};
ghost use Rattle.gateway_core.specs.Serving.{TellsRequest};
ghost use Rattle.gateway_core.specs.Transcoding.{IsWhyNone};
ghost use Rattle.gateway.specs.Refusing.{Refuses};
ghost use Rattle.gateway_upstream.specs.LookedUp.{IsWhyNotShown};
ghost use Rattle.spec_service.specs.UpstreamNaming.{IsNamingOf};

use crate::looked::Looked;
use gateway::{App, Gate, NamedReply, reply_named};
use gateway_requests::{Fault, Request};
use session_pool::ClientSeat;
use std::alloc::AllocError;
use std::sync::Wait;
use upstream_schemas::{Named, Upstream};

/// Returns the reply to what the bytes of a request asked, or to the first of their faults, by the ids of the upstream
/// registry: a message is rewritten between the schemas that the upstream answered for its two ids. The error says that
/// not even the answer that memory ran out found memory.
pub fn reply_upstream<'p, R: Wait, U: Upstream, G: Gate>(
    rt: &R,
    app: &App<'_, 'p>,
    looked: &mut Looked<'_, '_, U>,
    seat: &mut ClientSeat<'p>,
    gate: &mut G,
    request: Result<Request, Fault>,
) -> Result<NamedReply<Named<U>>, AllocError>
    requires schemas { looked.old.names.registry ≡ app.now.registry.now }
    requires seat { Rests app.now.pool.now seat.old }
    requires size { IfOk request (λ r. IsWithin MOST_BODY (request_of r)) }
    ensures seat { Rests app.now.pool.now seat.new }
    ensures replied { IfOk result (λ reply. (input : Option (List ℕ)) → TellsRequest input request
        → IsNamedReply (IsWhyNone (Refuses seat.old seat.new) (SaidNo G.says gate.old gate.new))
        looked.old.names.registry (IsNamingOf U.heard U.kept looked.old.names)
        (IsWhyNotShown U.heard U.kept looked.old.looks) input
        (reply.bytes.front.items ++ reply.bytes.rest.items) reply.status reply.sight) }
    ensures told { IfOk result (λ reply. (asked : Result Asked Fault) → Tells request_of request asked
        → IsNamedReplyTo (IsWhyNone (Refuses seat.old seat.new) (SaidNo G.says gate.old gate.new))
        looked.old.names.registry (IsNamingOf U.heard U.kept looked.old.names)
        (IsWhyNotShown U.heard U.kept looked.old.looks) asked
        (reply.bytes.front.items ++ reply.bytes.rest.items) reply.status reply.sight) }
{
    reply_named(rt, app, looked, seat, gate, request)
}
