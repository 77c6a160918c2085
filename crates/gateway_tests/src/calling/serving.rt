//! A caller of `gateway`.

ghost use Rattle.std.specs.Prelude.{Some};
ghost use Rattle.session_pool.specs.Seats.{Rests};
ghost use Rattle.gateway_core.specs.Gates.{SaidNo};
ghost use Rattle.gateway_core.specs.Serving.{ServesSome};
ghost use Rattle.gateway_core.specs.Transcoding.{IsWhyNone};
ghost use Rattle.gateway.specs.Refusing.{Refuses};

use gateway::{App, Gate, ServeError, serve_one};
use session_pool::ClientSeat;
use std::sync::Wait;

/// Answers the HTTP request of a text, and appends the bytes of the answer. Returns the answer's status. The error says
/// why there is no whole answer; then a beginning of it may be appended.
pub fn answer_text<'p, R: Wait, G: Gate>(
    rt: &R,
    app: &App<'_, 'p>,
    seat: &mut ClientSeat<'p>,
    gate: &mut G,
    request: &[u8],
    answer: &mut Vec<u8>,
) -> Result<u16, ServeError>
    requires { Rests app.now.pool.now seat.old }
    ensures seat { Rests app.now.pool.now seat.new }
    ensures served { ServesSome (IsWhyNone (Refuses seat.old seat.new) (SaidNo G.says gate.old gate.new))
        app.now.registry.now (Some request.now) (Some answer.old.items) (Some answer.new.items) result }
{
    let mut reader = request;
    serve_one(rt, app, seat, &mut reader, answer, gate)
}
