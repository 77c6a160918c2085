//! A client's thread that answers by the ids of an upstream registry.

ghost use Rattle.std.specs.Prelude.{◌≡◌, IfSome};
ghost use Rattle.session_pool.specs.Seats.{Rests};

use crate::Event;
use crate::client::reply_by_ids;
use crate::desk::{Desk, Ready};
use crate::gate::ClientGate;
use gateway::App;
use session_pool::ClientSeat;
use std::sync::Wait;
use std::time::Clock;
use upstream_schemas::Upstream;

/// Returns the next request that is to be answered, for which it waits: one that has come, or one of those that were
/// put aside. `None` once no more connections are accepted, all are closed and no request waits.
fn next_ready<'a, 'r, R: Wait + Clock, U: Upstream>(
    rt: &R,
    gate: &mut ClientGate<'_, '_, R>,
    desk: &mut Desk<'a, 'r, U>,
) -> Option<Ready<'a, 'r, U>>
    ensures desk { desk.new ≡ desk.old }
    ensures looked { IfSome result (λ ready. ready.looked.names ≡ desk.old) }
{
    for _ in rt.forever() {
        if let Some(ready) = desk.next_ready(rt) {
            return Some(ready);
        }
        match gate.next_event(desk.moment()) {
            Event::Over => return None,
            Event::Woken => {
                desk.begin_round();
                for fetch in desk.take_notes(rt) {
                    gate.note_fetch(fetch);
                }
            }
            Event::Request(pending) => {
                if let Some(ready) = desk.take_in(rt, pending) {
                    return Some(ready);
                }
            }
        }
    }
    None
}

/// Serves the requests of the gate's connections, until no more are accepted, all are closed and none waits. A
/// connection whose answer finds no memory is closed without one.
pub(crate) fn serve_upstream<'p, R: Wait + Clock, U: Upstream>(
    rt: &R,
    app: &App<'_, 'p>,
    seat: &mut ClientSeat<'p>,
    gate: &mut ClientGate<'_, 'p, R>,
    desk: &mut Desk<'_, '_, U>,
)
    requires seat { Rests app.now.pool.now seat.old }
    requires desk { desk.old.registry ≡ app.now.registry.now }
    ensures { Rests app.now.pool.now seat.new }
{
    for _ in rt.forever() {
        let Some(ready) = next_ready(rt, gate, desk) else {
            return;
        };
        let Ready {
            pending,
            mut looked,
        } = ready;
        if let Ok(answered) = reply_by_ids(rt, app, &mut looked, seat, gate, pending) {
            gate.send(answered);
        }
    }
}
