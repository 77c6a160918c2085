//! A client's thread: the requests of its connections, one after another, and the reply to each.

ghost use Rattle.std.specs.Option.{ForSome};
ghost use Rattle.std.specs.Prelude.{◌≡◌, IfOk};
ghost use Rattle.session_pool.specs.Seats.{Rests, RestsWorker};
ghost use Rattle.gateway_core.specs.Gates.{SaidNo};
ghost use Rattle.gateway_core.specs.Transcoding.{IsWhyNone};
ghost use Rattle.gateway.specs.Refusing.{Refuses};
ghost use Rattle.gateway_upstream.specs.LookedUp.{IsWhyNotShown};
ghost use Rattle.spec_service.specs.UpstreamNaming.{IsNamingOf};
ghost use Rattle.spec_service.specs.Replying.{IsRepliedByIds, IsRepliedTo};

use crate::beside::Beside;
use crate::desk::Desk;
use crate::gate::ClientGate;
use crate::shared::Shared;
use crate::upstream_client::serve_upstream;
use crate::{Answered, Connections, PendingRequest};
use gateway::{App, Gate, reply_to};
use gateway_upstream::{Looked, reply_upstream};
use session_pool::{ClientSeat, WorkerSeat};
use std::alloc::AllocError;
use std::sync::Wait;
use std::time::Clock;
use upstream_schemas::Upstream;

/// What a client's thread receives: its connections, a seat for its sessions, and one to take turns by while it waits
/// for them; and the schemas of an upstream registry, where the service uses one.
#[derive(Drop)]
pub(crate) struct Client<'a, 'p, 'r, U: Upstream> {
    pub(crate) shared: &'a Shared<'a, 'p>,
    pub(crate) beside: Option<&'a Beside<'a, 'r, U>>,
    pub(crate) seat: ClientSeat<'p>,
    pub(crate) helper: WorkerSeat<'p>,
    pub(crate) connections: Connections,
    ghost rests: { Rests shared.now.pool.now seat },
    ghost helps: { RestsWorker shared.now.pool.now helper },
    ghost cells: { ForSome beside (λ b. b.now.schemas.now.registry ≡ shared.now.registry.now) },
}

/// Serves the requests of the gate's connections, until no more are accepted and all are closed. A connection whose
/// answer finds no memory is closed without one.
fn serve_requests<'p, R: Wait + Clock>(
    rt: &R,
    app: &App<'_, 'p>,
    seat: &mut ClientSeat<'p>,
    gate: &mut ClientGate<'_, 'p, R>,
)
    requires { Rests app.now.pool.now seat.old }
    ensures { Rests app.now.pool.now seat.new }
{
    for _ in rt.forever() {
        let Some(pending) = gate.next() else {
            return;
        };
        if let Ok(answered) = reply_over(rt, app, seat, gate, pending) {
            gate.send(answered);
        }
    }
}

/// Runs a client's thread. Returns how many answers it sent whole; the error is that memory ran out.
pub(crate) fn run_client<R: Wait + Clock, U: Upstream>(
    rt: &R,
    client: Client<'_, '_, '_, U>,
) -> Result<u64, AllocError> {
    let Client {
        shared,
        beside,
        mut seat,
        helper,
        connections,
    } = client;
    let pool = shared.pool;
    let app = App::new(shared.alloc, shared.registry, pool.cache(), pool)?;
    let mut gate = ClientGate::new(rt, shared, helper, connections)?;
    match beside {
        Some(beside) => {
            let mut desk = Desk::new(shared.alloc, beside);
            serve_upstream(rt, &app, &mut seat, &mut gate, &mut desk);
        }
        None => serve_requests(rt, &app, &mut seat, &mut gate),
    }
    Ok(gate.answered())
}

/// Replies to what a connection asks. Returns the connection with the answer. The error is that memory ran out: the
/// connection is closed then.
pub fn reply_over<'p, R: Wait + Clock, G: Gate>(
    rt: &R,
    app: &App<'_, 'p>,
    seat: &mut ClientSeat<'p>,
    gate: &mut G,
    pending: PendingRequest,
) -> Result<Answered, AllocError>
    requires { Rests app.now.pool.now seat.old }
    ensures seat { Rests app.now.pool.now seat.new }
    ensures replied { IfOk result (IsRepliedTo (IsWhyNone (Refuses seat.old seat.new) (SaidNo G.says gate.old gate.new))
        app.now.registry.now pending) }
{
    let (request, connection) = pending.into_parts();
    let reply = reply_to(rt, app, seat, gate, request)?;
    connection.answer(rt, reply.bytes, reply.status)
}

/// Replies to what a connection asks, whose schemas were looked up, by the ids of an upstream registry. Returns the
/// connection with the answer. The error is that memory ran out: the connection is closed then.
pub fn reply_by_ids<'p, R: Wait + Clock, U: Upstream, G: Gate>(
    rt: &R,
    app: &App<'_, 'p>,
    looked: &mut Looked<'_, '_, U>,
    seat: &mut ClientSeat<'p>,
    gate: &mut G,
    pending: PendingRequest,
) -> Result<Answered, AllocError>
    requires schemas { looked.old.names.registry ≡ app.now.registry.now }
    requires seat { Rests app.now.pool.now seat.old }
    ensures seat { Rests app.now.pool.now seat.new }
    ensures replied { IfOk result (IsRepliedByIds
        (IsWhyNone (Refuses seat.old seat.new) (SaidNo G.says gate.old gate.new)) looked.old.names.registry
        (IsNamingOf U.heard U.kept looked.old.names) (IsWhyNotShown U.heard U.kept looked.old.looks) pending) }
{
    let (request, connection) = pending.into_parts();
    let reply = reply_upstream(rt, app, looked, seat, gate, request)?;
    connection.answer(rt, reply.bytes, reply.status)
}
