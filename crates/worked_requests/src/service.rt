//! Requests answered in memory.

ghost use Rattle.session_pool.specs.Seats.{Rests};

use crate::calls::Behaviour;
use crate::devices::{Receiver, Sender};
use crate::row::Row;
use gateway::{App, Helping, ServeError, reply_to, serve_one};
use gateway_requests::{Progress, Reception, Routes, Sending, receive, send};
use session_pool::ClientSeat;
use std::alloc::Global;
use std::sync::Wait;

/// The number of turns that a request may take to come, and its answer to go.
const MOST_TURNS: u32 = 1_000_000;

/// What requests are answered with, and the seat that all of them take in turn.
#[derive(Drop)]
pub(crate) struct Service<'a, 'p> {
    app: App<'a, 'p>,
    routes: Routes,
    seat: ClientSeat<'p>,
    gate: Helping<'a, 'p>,
    ghost rests: { Rests app.pool.now seat },
}

/// What came of a request.
#[derive(Drop)]
pub(crate) struct Served {
    pub(crate) status: Result<u16, ServeError>,
    /// The bytes that the writer took.
    pub(crate) bytes: Vec<u8>,
    /// Whether the call was made at which the reader fails.
    pub(crate) reader_failed: bool,
    /// Whether the call was made at which the writer fails.
    pub(crate) writer_failed: bool,
}

impl<'a, 'p> Service<'a, 'p> {
    /// Returns a service that answers by sessions that run while their answers are waited for.
    pub(crate) fn new(
        app: App<'a, 'p>,
        routes: Routes,
        seat: ClientSeat<'p>,
        gate: Helping<'a, 'p>,
    ) -> Service<'a, 'p>
        requires { Rests app.pool.now seat }
    {
        Service {
            app,
            routes,
            seat,
            gate,
        }
    }

    /// Serves a request by a reader and a writer with these behaviours.
    pub(crate) fn serve<R: Wait>(
        &mut self,
        rt: &R,
        alloc: Global,
        row: &Row,
        reading: Behaviour,
        writing: Behaviour,
    ) -> Served {
        let mut reader = Sender::new(&row.request, row.is_open, reading);
        let mut writer = Receiver::new(alloc, writing);
        let status = serve_one(
            rt,
            &self.app,
            &mut self.seat,
            &mut reader,
            &mut writer,
            &mut self.gate,
        );
        Served {
            status,
            bytes: writer.taken,
            reader_failed: reader.calls.has_failed,
            writer_failed: writer.calls.has_failed,
        }
    }

    /// Serves a request by a reader and a writer with these behaviours, part by part, as over a connection that does
    /// not block.
    pub(crate) fn serve_in_parts<R: Wait>(
        &mut self,
        rt: &R,
        alloc: Global,
        row: &Row,
        reading: Behaviour,
        writing: Behaviour,
    ) -> Served {
        let mut reader = Sender::new(&row.request, row.is_open, reading);
        let mut writer = Receiver::new(alloc, writing);
        let status = self.exchange(rt, alloc, &mut reader, &mut writer);
        Served {
            status,
            bytes: writer.taken,
            reader_failed: reader.calls.has_failed,
            writer_failed: writer.calls.has_failed,
        }
    }

    /// Receives a request, answers it and sends the answer. Returns the status, or why there is none.
    fn exchange<R: Wait>(
        &mut self,
        rt: &R,
        alloc: Global,
        reader: &mut Sender<'_>,
        writer: &mut Receiver,
    ) -> Result<u16, ServeError> {
        let mut reception = Reception::new(alloc);
        if !has_come(&mut reception, &self.routes, reader) {
            let has_failed = reader.calls.has_failed || !reception.is_empty();
            return Err(if has_failed {
                ServeError::ReadFault
            } else {
                ServeError::Closed
            });
        }
        let request = reception.into_request();
        let reply = reply_to(rt, &self.app, &mut self.seat, &mut self.gate, request).map_err(
            |_| ServeError::NoMemory,
        )?;
        let mut sending = Sending::new(reply.bytes);
        if has_gone(&mut sending, writer) {
            Ok(reply.status)
        } else {
            Err(ServeError::WriteFault {
                sent: sending.sent(),
            })
        }
    }
}

/// Receives a request, in as many turns as that takes. Returns whether it came whole, or to its end.
fn has_come(reception: &mut Reception, routes: &Routes, reader: &mut Sender<'_>) -> bool {
    for _ in 0..MOST_TURNS {
        match receive(reception, routes, reader) {
            Progress::Whole => return true,
            Progress::Blocked | Progress::Ready if !reader.calls.has_failed => {}
            _ => return false,
        }
    }
    false
}

/// Sends an answer, in as many turns as that takes. Returns whether it went whole.
fn has_gone(sending: &mut Sending, writer: &mut Receiver) -> bool {
    for _ in 0..MOST_TURNS {
        match send(sending, writer) {
            Progress::Whole => return true,
            Progress::Blocked | Progress::Ready if !writer.calls.has_failed => {}
            _ => return false,
        }
    }
    false
}
