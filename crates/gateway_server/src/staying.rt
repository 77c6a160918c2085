//! Connections that stay for more than one request (RFC 9112, section 9.3).

use crate::connection::{Asked, Connection, Stage};
use crate::connections::{Connections, deadline_after};
use crate::log::target_line;
use gateway_requests::{Progress, Routes, Status};
use httpdate::HttpDate;
use persistent_exchange::{Course, RequestStream};
use std::time::{Clock, Duration, Instant};

/// Returns the date. `None` where there is no clock.
pub(crate) fn date<R: Clock>(rt: &R) -> Option<HttpDate> {
    let time = rt.since_1970().ok()?;
    HttpDate::from_unix_secs(time.as_secs()).ok()
}

/// What has come of the requests of a connection that stays.
#[derive(Clone, Copy)]
struct StreamState {
    /// Whether nothing more is to be sent or read.
    is_done: bool,
    /// Whether a head was seen whose request has not ended.
    is_within: bool,
    /// Whether nothing has come since the last answer.
    is_idle: bool,
    /// The number of bytes that were sent of the last answer.
    sent: usize,
}

/// Returns what has come of some requests.
fn state_of(stays: &RequestStream) -> StreamState {
    StreamState {
        is_done: stays.is_done(),
        is_within: stays.is_within(),
        is_idle: stays.is_idle(),
        sent: stays.sent(),
    }
}

impl Connections {
    /// Returns the requests of a new connection, where connections stay. The outer `None` means that memory ran out.
    pub(crate) fn stream(&self) -> Option<Option<Box<RequestStream>>> {
        let Some(persistence) = self.bounds.persistence else {
            return Some(None);
        };
        let stream = RequestStream::new(self.alloc, persistence.keys);
        match Box::new(self.alloc, stream) {
            Ok(stream) => Some(Some(stream)),
            Err(_) => None,
        }
    }

    /// Sets the deadline of a connection for what has begun: for the head of a request, of which the first bytes have
    /// come, or for the request, whose head is whole.
    fn set_deadline<R: Clock>(&self, rt: &R, connection: &mut Connection, was_idle: bool) {
        let Some(stays) = &connection.stays else {
            return;
        };
        let state = state_of(stays);
        if was_idle
            && !state.is_idle
            && let Ok(now) = Instant::now(rt)
        {
            connection.begun = now;
        }
        let time = if state.is_within {
            self.bounds.request
        } else if was_idle && !state.is_idle {
            self.bounds.head
        } else {
            return;
        };
        if let Some(deadline) = connection.begun.checked_add(time) {
            connection.deadline = deadline;
        }
    }

    /// Reads what has come over a connection that stays. Returns its next request, where that is whole.
    pub(crate) fn read_on<R: Clock>(
        &mut self,
        rt: &R,
        routes: &Routes,
        connection: Connection,
    ) -> Option<Asked> {
        let mut connection = connection;
        let Some(stays) = &mut connection.stays else {
            return None;
        };
        let was_idle = stays.is_idle();
        let course = stays.receive(routes, &mut connection.stream, date(rt));
        self.set_deadline(rt, &mut connection, was_idle);
        match course {
            Course::Asked => return Some(self.hand_out(connection)),
            Course::Pending => self.write_on(rt, connection),
            Course::Blocked => {
                self.keep(connection, Stage::Reading);
            }
            Course::Ready => self.postpone(connection, Stage::Reading),
            Course::Over | Course::Failed => {}
        }
        None
    }

    /// Returns a connection that stays, whose request has come whole.
    fn hand_out(&mut self, connection: Connection) -> Asked {
        let mut connection = connection;
        self.set_line(&mut connection);
        connection.asked_at = self.reports;
        Asked {
            connection,
            reception: None,
        }
    }

    /// Keeps what a line shows of the request that was seen last, where answers are logged.
    fn set_line(&self, connection: &mut Connection) {
        let Some(stays) = &connection.stays else {
            return;
        };
        connection.received = stays.received();
        if self.log.is_some() {
            let (method, target) = stays.head();
            connection.line = target_line(self.alloc, method, target).ok();
        }
    }

    /// Sends what is left to send on a connection that stays.
    pub(crate) fn write_on<R: Clock>(&mut self, rt: &R, connection: Connection) {
        let mut connection = connection;
        let Some(stays) = &mut connection.stays else {
            return;
        };
        match stays.send(&mut connection.stream) {
            Progress::Whole => self.turn(rt, connection),
            Progress::Blocked => {
                self.keep(connection, Stage::Writing);
            }
            Progress::Ready => self.postpone(connection, Stage::Writing),
            Progress::Failed | Progress::NoMemory => {
                let sent = stays.sent();
                self.note(rt, &connection, sent);
            }
        }
    }

    /// Goes on with a connection that stays, on which all was sent that was to be sent: with the request whose
    /// content the client was asked for, with the next request, or with the connection's end.
    fn turn<R: Clock>(&mut self, rt: &R, connection: Connection) {
        let Some(stays) = &connection.stays else {
            return;
        };
        let state = state_of(stays);
        if state.is_done {
            self.end(rt, connection, state);
        } else if state.is_within {
            self.postpone(connection, Stage::Reading);
        } else {
            self.answered = self.answered.saturating_add(1);
            self.note(rt, &connection, state.sent);
            self.wait_for_next(rt, connection);
        }
    }

    /// Waits for the next request of a connection that stays.
    ///
    /// Where no more was reported since its last request was handed out, and all was read that had come, the system
    /// reports what comes; else the connection is read once more.
    fn wait_for_next<R: Clock>(&mut self, rt: &R, connection: Connection) {
        let mut connection = connection;
        let Some(stays) = &mut connection.stays else {
            return;
        };
        stays.turn();
        let is_quiet = stays.is_idle() && stays.is_drained();
        let time = if stays.is_idle() {
            self.idle()
        } else {
            self.bounds.head
        };
        let (Ok(now), Some(deadline)) = (Instant::now(rt), deadline_after(rt, time)) else {
            return;
        };
        connection.begun = now;
        connection.deadline = deadline;
        if is_quiet && connection.asked_at == self.reports {
            self.keep(connection, Stage::Reading);
        } else {
            self.postpone(connection, Stage::Reading);
        }
    }

    /// Returns how long a connection that stays may be idle.
    fn idle(&self) -> Duration {
        match self.bounds.persistence {
            Some(persistence) => persistence.idle,
            None => self.bounds.head,
        }
    }

    /// Ends a connection that stayed, whose last answer was sent: to its last request, or for the fault of what came
    /// after it.
    fn end<R: Clock>(&mut self, rt: &R, connection: Connection, state: StreamState) {
        let mut connection = connection;
        let fault = match &connection.stays {
            Some(stays) => stays.fault(),
            None => None,
        };
        if let Some(fault) = fault {
            connection.status = fault.status().number();
            self.set_line(&mut connection);
        } else if state.is_within {
            connection.status = Status::BadRequest.number();
            self.set_line(&mut connection);
        }
        connection.is_even = state.is_idle;
        self.finish(rt, connection, state.sent);
    }
}
