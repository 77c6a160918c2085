//! The connections of a thread.

ghost use Rattle.std.specs.Prelude.{◌≡◌};

use crate::bounds::Bounds;
use crate::connection::{
    Answered, Asked, Connection, OpenConnections, PendingRequest, Stage, Waiting,
};
use crate::listening::{NEW, WAKE, leave, watch};
use crate::log::{Entry, Fetch, Log, LogLock, request_line};
use boxcar::tag::Tag;
use gateway_requests::{Progress, Reception, Routes, Sending, drain, receive, send};
use mio::net::TcpListener;
use mio::{Events, Poll, Token, Waker};
use std::alloc::Global;
use std::collections::VecDeque;
use std::io::{ErrorKind, Read};
use std::marker::Model;
use std::net::{Net, Shutdown};
use std::sync::Wait;
use std::time::{Clock, Duration, Instant};
use std::{io, thread};

/// The number of reports that are taken at once.
const REPORTS: usize = 64;

/// The number of bytes that are read at once of what is discarded.
const CHUNK: usize = 65_536;

/// The number of bytes of the longest answer that is not lost where its connection is closed at once: the system has
/// taken all of it.
const SENT_AT_ONCE: usize = 16_384;

/// The number of milliseconds that a thread waits where no connection can be accepted and none can be closed.
const PAUSE: u64 = 10;

/// The number of milliseconds after which lines are tried again that standard error has not taken.
const LOG_PAUSE: u64 = 100;

/// What a thread has to handle next.
#[derive(Drop)]
pub enum Event {
    /// A request is to be answered.
    Request(PendingRequest),
    /// Another thread has woken this one, or a moment has come.
    Woken,
    /// No more connections are accepted, and all are closed.
    Over,
}

/// The connections of a thread. Callers see it as the number of answers that were sent whole.
#[derive(Drop)]
pub struct Connections {
    pub(crate) alloc: Global,
    listener: TcpListener,
    pub(crate) bounds: Bounds,
    poll: Poll,
    events: Events,
    /// Whether connections to be accepted were reported, and none was tried since.
    has_new: bool,
    /// The keys of what was reported, or put off, and has not been handled.
    ready: VecDeque<usize>,
    /// The number of these that are handled before the system is asked again.
    round: usize,
    /// The keys of whole requests that came while another one was served.
    whole: VecDeque<usize>,
    pub(crate) open: OpenConnections,
    /// Whether another thread has woken this one, and that was not handed out.
    is_woken: bool,
    /// When it was found that some connections are late.
    late: Option<Instant>,
    accepted: u32,
    is_accepting: bool,
    pub(crate) answered: u64,
    scrap: Vec<u8>,
    /// The lines of answers, where these are logged.
    pub(crate) log: Option<Log>,
    /// The number of times that reports of the system were taken.
    pub(crate) reports: u64,
}

impl Model for Connections {
    ghost use Rattle.std.specs.Prelude.{ℕ};

    ghost Value = { ℕ };

    ghost view = { λ c. c.answered };
}

impl Connections {
    /// Returns the connections to a listener, which is made non-blocking; none is accepted yet. With a lock it logs a
    /// line for each answer. The errors are the system's, and that memory ran out.
    pub fn new(
        net: &impl Net,
        alloc: Global,
        listener: &std::net::TcpListener,
        bounds: Bounds,
        lock: Option<&LogLock>,
    ) -> io::Result<Connections> {
        listener.set_nonblocking(true)?;
        let listener = TcpListener::from_std(listener.try_clone()?);
        let poll = Poll::new(net)?;
        watch(&poll, &listener)?;
        let log = match lock {
            Some(lock) => Some(Log::new(net, alloc, lock)?),
            None => None,
        };
        Ok(Connections {
            alloc,
            listener,
            bounds,
            poll,
            events: Events::with_capacity(alloc, REPORTS)?,
            has_new: false,
            ready: VecDeque::with_capacity(alloc, REPORTS)?,
            round: 0,
            whole: VecDeque::new(alloc),
            open: OpenConnections::new(alloc),
            is_woken: false,
            late: None,
            accepted: 0,
            is_accepting: true,
            answered: 0,
            scrap: vec![in alloc; 0; CHUNK]?,
            log,
            reports: 0,
        })
    }

    /// Returns the number of answers that were sent whole.
    pub fn answered(&self) -> u64
        ensures { result ≡ self.now }
    {
        self.answered
    }

    /// Returns what wakes this thread from another one, while it waits for its next request. The errors are the
    /// system's.
    pub fn waker(&self) -> io::Result<Waker> {
        Waker::new(self.poll.registry(), Token(WAKE))
    }

    /// Returns the next request to be served, for which it waits. `None` once no more connections are accepted and all
    /// are closed.
    pub fn next<R: Wait + Clock>(&mut self, rt: &R, routes: &Routes) -> Option<PendingRequest> {
        for _ in rt.forever() {
            match self.next_event(rt, routes, None) {
                Event::Request(pending) => return Some(pending),
                Event::Over => return None,
                Event::Woken => {}
            }
        }
        None
    }

    /// Returns the next request to be served; or that another thread has woken this one, or that a moment has come. It
    /// waits for these. Where there is no moment it is over once no more connections are accepted and all are closed.
    pub fn next_event<R: Wait + Clock>(
        &mut self,
        rt: &R,
        routes: &Routes,
        moment: Option<Instant>,
    ) -> Event {
        for _ in rt.forever() {
            if let Some(asked) = self.next_whole()
                && let Some(pending) = asked.into_pending(routes)
            {
                return Event::Request(pending);
            }
            if self.is_woken || is_past(rt, moment) {
                self.is_woken = false;
                return Event::Woken;
            }
            if moment.is_none() && !self.is_accepting && self.open.is_empty() {
                return Event::Over;
            }
            if let Some(asked) = self.see_to_next(rt, routes, moment)
                && let Some(pending) = asked.into_pending(routes)
            {
                return Event::Request(pending);
            }
        }
        Event::Over
    }

    /// Handles a connection to be accepted, or else what is ready next; or asks the system where this round is over.
    /// Returns a request that is to be served.
    fn see_to_next<R: Clock>(
        &mut self,
        rt: &R,
        routes: &Routes,
        moment: Option<Instant>,
    ) -> Option<Asked> {
        if self.has_new {
            self.has_new = false;
            return self.accept(rt, routes);
        }
        if self.round == 0 {
            self.wait(rt, moment);
            return None;
        }
        self.round -= 1;
        let key = self.ready.pop_front()?;
        self.resume(rt, routes, key)
    }

    /// Reads and writes what is ready of the connections, while a request of this thread is served. Whole requests wait
    /// for `next`. It waits for nothing, and accepts no connection.
    pub fn go_on<R: Clock>(&mut self, rt: &R, routes: &Routes) {
        self.poll_for(Some(Duration::ZERO));
        for _ in 0..self.ready.len() {
            if let Some(key) = self.ready.pop_front()
                && let Some(asked) = self.resume(rt, routes, key)
            {
                self.keep_whole(asked);
            }
        }
        self.round = self.ready.len();
    }

    /// Sends the answer to a request, now or as the client takes it.
    pub fn send<R: Clock>(&mut self, rt: &R, answered: Answered) {
        let Answered {
            connection,
            sending,
        } = answered;
        let mut connection = connection;
        if let Some(deadline) = deadline_after(rt, self.bounds.answer) {
            connection.deadline = deadline;
            match sending {
                Some(sending) => self.write(rt, connection, sending),
                None => self.write_on(rt, connection),
            }
        }
    }

    /// Logs a question to an upstream registry, where answers are logged.
    pub fn note_fetch(&mut self, fetch: Fetch) {
        if let Some(log) = &mut self.log {
            log.note_fetch(fetch);
        }
    }

    /// Returns the oldest of the whole requests that came while another one was served.
    fn next_whole(&mut self) -> Option<Asked> {
        for _ in 0..self.whole.len() {
            let key = self.whole.pop_front()?;
            if self.open.is_whole(key) {
                let Waiting { connection, stage } = self.open.take(key)?;
                return whole_in(connection, stage);
            }
        }
        None
    }

    /// Keeps a whole request until `next` hands it out. One that found no memory is closed.
    fn keep_whole(&mut self, asked: Asked) {
        let Asked {
            connection,
            reception,
        } = asked;
        let stage = match reception {
            Some(reception) => Stage::Whole(reception),
            None if connection.stays.is_some() => Stage::Asking,
            None => return,
        };
        let key = self.keep(connection, stage);
        let _ = self.whole.push_back(key);
    }

    /// Accepts one connection, and reads what has come of its request. A connection that cannot be accepted counts as
    /// accepted.
    fn accept<R: Clock>(&mut self, rt: &R, routes: &Routes) -> Option<Asked> {
        if !self.is_accepting {
            return None;
        }
        let stream = match self.listener.accept() {
            Ok((stream, _)) => Some(stream),
            Err(error) if error.kind() == ErrorKind::WouldBlock => return None,
            Err(_) => {
                self.make_way(rt);
                None
            }
        };
        self.accepted = self.accepted.wrapping_add(1);
        if self.bounds.each != 0 && self.accepted == self.bounds.each {
            self.is_accepting = false;
            leave(&self.poll, &self.listener);
        }
        let begun = Instant::now(rt).ok()?;
        let connection = Connection {
            stream: stream?,
            is_even: false,
            begun,
            deadline: begun.checked_add(self.bounds.head)?,
            watched: None,
            received: 0,
            status: 0,
            line: None,
            stays: self.stream()?,
            asked_by: Tag::empty(),
            asked_at: 0,
        };
        if connection.stays.is_some() {
            return self.read_on(rt, routes, connection);
        }
        self.receive(routes, connection, Reception::new(self.alloc))
    }

    /// Handles a connection of which something was reported. Returns its request, where that is to be served now.
    fn resume<R: Clock>(&mut self, rt: &R, routes: &Routes, key: usize) -> Option<Asked> {
        let Waiting { connection, stage } = self.open.take(key)?;
        match stage {
            Stage::Receiving(reception) => return self.receive(routes, connection, reception),
            Stage::Whole(reception) => {
                let key = self.keep(connection, Stage::Whole(reception));
                let _ = self.whole.push_back(key);
            }
            Stage::Sending(sending) => self.write(rt, connection, sending),
            Stage::Reading => return self.read_on(rt, routes, connection),
            Stage::Asking => {
                let key = self.keep(connection, Stage::Asking);
                let _ = self.whole.push_back(key);
            }
            Stage::Writing => self.write_on(rt, connection),
            Stage::Draining => self.drain(connection),
        }
        None
    }

    /// Reads what has come of a request. Returns the request where it is whole, or nothing more will come of it.
    fn receive(
        &mut self,
        routes: &Routes,
        connection: Connection,
        reception: Reception,
    ) -> Option<Asked> {
        let (mut connection, mut reception) = (connection, reception);
        let progress = receive(&mut reception, routes, &mut connection.stream);
        if reception.has_head()
            && let Some(deadline) = connection.begun.checked_add(self.bounds.request)
        {
            connection.deadline = deadline;
        }
        match progress {
            Progress::Whole => {
                connection.is_even = reception.is_even();
                connection.received = reception.held();
                if self.log.is_some() {
                    connection.line = request_line(self.alloc, reception.head()).ok();
                }
                return Some(Asked {
                    connection,
                    reception: Some(reception),
                });
            }
            Progress::NoMemory => {
                return Some(Asked {
                    connection,
                    reception: None,
                });
            }
            Progress::Blocked => {
                self.keep(connection, Stage::Receiving(reception));
            }
            Progress::Ready => self.postpone(connection, Stage::Receiving(reception)),
            Progress::Failed => {}
        }
        None
    }

    /// Sends what is left of an answer.
    fn write<R: Clock>(&mut self, rt: &R, connection: Connection, sending: Sending) {
        let (mut connection, mut sending) = (connection, sending);
        match send(&mut sending, &mut connection.stream) {
            Progress::Whole => self.finish(rt, connection, sending.len()),
            Progress::Blocked => {
                self.keep(connection, Stage::Sending(sending));
            }
            Progress::Ready => self.postpone(connection, Stage::Sending(sending)),
            Progress::Failed | Progress::NoMemory => self.note(rt, &connection, sending.sent()),
        }
    }

    /// Logs an answer, of which `sent` bytes were sent, where answers are logged.
    pub(crate) fn note<R: Clock>(&mut self, rt: &R, connection: &Connection, sent: usize) {
        if let Some(log) = &mut self.log
            && let Some(line) = &connection.line
            && let Ok(now) = Instant::now(rt)
        {
            let entry = Entry {
                status: connection.status,
                received: connection.received,
                sent,
                time: now.saturating_duration_since(connection.begun),
            };
            log.note(line.as_str(), entry);
        }
    }

    /// Ends an answer of `length` bytes.
    ///
    /// Where bytes of the request are unread, or may still come before the answer has gone, they are discarded first:
    /// were the connection closed over them, the client would be reset, and might lose the answer.
    pub(crate) fn finish<R: Clock>(&mut self, rt: &R, connection: Connection, length: usize) {
        let mut connection = connection;
        self.answered = self.answered.saturating_add(1);
        self.note(rt, &connection, length);
        if connection.is_even && length <= SENT_AT_ONCE {
            match connection.stream.read(&mut self.scrap) {
                Ok(0) => return,
                Err(error) if error.kind() == ErrorKind::WouldBlock => return,
                _ => {}
            }
        }
        if connection.stream.shutdown(Shutdown::Write).is_err() {
            return;
        }
        if let Some(deadline) = deadline_after(rt, self.bounds.rest) {
            connection.deadline = deadline;
            self.drain(connection);
        }
    }

    /// Discards what has come after a request.
    fn drain(&mut self, connection: Connection) {
        let mut connection = connection;
        match drain(&mut connection.stream, &mut self.scrap) {
            Progress::Blocked => {
                self.keep(connection, Stage::Draining);
            }
            Progress::Ready => self.postpone(connection, Stage::Draining),
            Progress::Whole | Progress::Failed | Progress::NoMemory => {}
        }
    }

    /// Keeps a connection until it is ready, and returns its key. Where too many are open, or too much is held, others
    /// are closed; one that cannot be watched is closed itself.
    pub(crate) fn keep(&mut self, connection: Connection, stage: Stage) -> usize {
        let mut waiting = Waiting { connection, stage };
        self.open.make_room(&self.bounds, waiting.held());
        let key = self.open.next_key();
        let interest = waiting.stage.interest();
        let now = Some((interest, key));
        let connection = &mut waiting.connection;
        if connection.watched != now {
            let registry = self.poll.registry();
            let stream = &mut connection.stream;
            let watched = match connection.watched {
                Some(_) => registry.reregister(stream, Token(key), interest),
                None => registry.register(stream, Token(key), interest),
            };
            if watched.is_err() {
                return key;
            }
            connection.watched = now;
        }
        self.open.keep(waiting);
        key
    }

    /// Keeps a connection that may be ready for more, and lets others have their turn.
    pub(crate) fn postpone(&mut self, connection: Connection, stage: Stage) {
        let key = self.keep(connection, stage);
        let _ = self.ready.push_back(key);
    }

    /// Makes way where no connection can be accepted, as where no more files can be open: one is closed, or time
    /// passes.
    fn make_way<R: Clock>(&mut self, rt: &R) {
        if self.open.is_empty() {
            thread::sleep(rt, Duration::from_millis(PAUSE));
        } else {
            self.open.close_worst(0);
        }
    }

    /// Takes what the system reports, and begins a round of all that is ready. Where nothing is ready yet it waits,
    /// until time is up, or a moment has come.
    ///
    /// What has come before a connection is late is still taken: it is closed only after one more look.
    fn wait<R: Clock>(&mut self, rt: &R, moment: Option<Instant>) {
        if let Some(late) = self.late {
            self.late = None;
            self.open.close_late(late);
        }
        let mut timeout = self.time_left(rt);
        if let Some(left) = time_until(rt, moment) {
            timeout = earlier_of(timeout, left);
        }
        if let Some(log) = &mut self.log {
            log.flush();
            if log.is_pending() {
                timeout = earlier_of(timeout, Duration::from_millis(LOG_PAUSE));
            }
        }
        if !self.ready.is_empty() {
            timeout = Some(Duration::ZERO);
        }
        if !self.poll_for(timeout) {
            thread::sleep(rt, Duration::from_millis(PAUSE));
        }
        self.round = self.ready.len();
    }

    /// Takes reports, for which it waits `timeout` at most, or without end. Returns whether the system reports at
    /// all.
    fn poll_for(&mut self, timeout: Option<Duration>) -> bool {
        self.reports = self.reports.wrapping_add(1);
        if self.poll.poll(&mut self.events, timeout).is_err() {
            return false;
        }
        for event in self.events.iter() {
            let key = event.token().0;
            if key == NEW {
                self.has_new = true;
            } else if key == WAKE {
                self.is_woken = true;
            } else {
                let _ = self.ready.push_back(key);
            }
        }
        true
    }

    /// Returns how long it is until the first connection is late. It notes the time where one is.
    fn time_left<R: Clock>(&mut self, rt: &R) -> Option<Duration> {
        let soonest = self.open.soonest?;
        let now = Instant::now(rt).ok()?;
        if soonest <= now {
            self.late = Some(now);
        }
        Some(soonest.saturating_duration_since(now))
    }
}

/// Returns the whole request of a connection in a stage. `None` where the stage has none.
fn whole_in(connection: Connection, stage: Stage) -> Option<Asked> {
    match stage {
        Stage::Whole(reception) => Some(Asked {
            connection,
            reception: Some(reception),
        }),
        Stage::Asking => Some(Asked {
            connection,
            reception: None,
        }),
        _ => None,
    }
}

/// Returns the shorter of two times, where both are there.
fn earlier_of(one: Option<Duration>, other: Duration) -> Option<Duration> {
    Some(match one {
        Some(one) => one.min(other),
        None => other,
    })
}

/// Returns how long it is until a moment, where there is one. `None` where the clock fails.
fn time_until<R: Clock>(rt: &R, moment: Option<Instant>) -> Option<Duration> {
    let moment = moment?;
    let now = Instant::now(rt).ok()?;
    Some(moment.saturating_duration_since(now))
}

/// Returns whether a moment has come, where there is one.
fn is_past<R: Clock>(rt: &R, moment: Option<Instant>) -> bool {
    match time_until(rt, moment) {
        Some(left) => left.is_zero(),
        None => false,
    }
}

/// Returns when a time has passed from now on. `None` where the clock has no such moment.
pub(crate) fn deadline_after<R: Clock>(rt: &R, time: Duration) -> Option<Instant> {
    Instant::now(rt).ok()?.checked_add(time)
}
