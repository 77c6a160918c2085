//! The service as a whole: what its threads share, and what it prints.

ghost use Rattle.std.specs.Option.{ForSome};
ghost use Rattle.std.specs.Prelude.{◌≡◌};
ghost use Rattle.gateway_server.specs.Options.{IsWithin};

use crate::beside::{Beside, FetchNotes, NoUpstream, Questions, Source, Watching};
use crate::fetchers::{Fetcher, run_fetchers};
use crate::gate::Signals;
use crate::options::ServeOptions;
use crate::shared::Shared;
use crate::threads::run_threads;
use crate::{Bounds, Connections, LogLock};
use command_io::{RunError, write_whole};
use mio::Waker;
use program_cache::ProgramCache;
use schema_registry::SharedRegistry;
use session_pool::SessionPool;
use std::alloc::Global;
use std::io::{ErrorKind, Write};
use std::net::{Net, TcpListener};
use std::sync::Wait;
use std::thread;
use std::thread::Threads;
use std::time::{Clock, Duration};
use upstream_fetching::FetchQueue;
use upstream_schemas::Upstream;

/// The number of seconds that what follows a request may take, once its answer was sent.
const REST: u64 = 2;

/// The greatest number of bytes of requests and answers that the connections of a client hold, beside the request
/// that is served.
const MOST_HELD: usize = 134_217_728;

/// Returns the bounds of the connections of a client.
fn bounds_of(options: &ServeOptions) -> Bounds {
    Bounds {
        head: options.head_timeout.min(options.request_timeout),
        request: options.request_timeout,
        answer: options.request_timeout,
        rest: Duration::from_secs(REST),
        open: options.connections as usize,
        bytes: MOST_HELD,
        each: options.each,
        persistence: options.persistence,
    }
}

/// Returns a set of connections to a listener for each client. `Read` where the system refuses one.
fn sets_of(
    net: &impl Net,
    alloc: Global,
    listener: &TcpListener,
    options: &ServeOptions,
) -> Result<Vec<Connections>, RunError> {
    let lock = if options.is_logged {
        Some(LogLock::new(alloc)?)
    } else {
        None
    };
    let mut sets = Vec::new(alloc);
    for _ in 0..options.clients {
        let bounds = bounds_of(options);
        match Connections::new(net, alloc, listener, bounds, lock.as_ref()) {
            Ok(connections) => sets.push(connections)?,
            Err(error) if error.kind() == ErrorKind::OutOfMemory => return Err(RunError::NoMemory),
            Err(_) => return Err(RunError::Read),
        }
    }
    Ok(sets)
}

/// Writes a line of a word and a number to a writer.
fn write_number<W: Write>(
    alloc: Global,
    writer: &mut W,
    word: &str,
    number: u64,
) -> Result<(), RunError> {
    let line = format!(in alloc; "{word} {number}\n")?;
    write_whole(writer, line.as_bytes())
}

/// What a service begins with.
#[derive(Drop)]
struct Start<'o, 'r> {
    alloc: Global,
    options: &'o ServeOptions,
    registry: &'r SharedRegistry,
    port: u16,
}

/// Returns the port of a listener. `Read` where it has none.
fn port_of(listener: &TcpListener) -> Result<u16, RunError> {
    match listener.local_addr() {
        Ok(address) => Ok(address.port()),
        Err(_) => Err(RunError::Read),
    }
}

/// Returns what wakes the threads of some connections. `Read` where the system refuses one.
fn wakers_of(alloc: Global, sets: &[Connections]) -> Result<Vec<Waker>, RunError> {
    let mut wakers = Vec::new(alloc);
    for connections in sets {
        match connections.waker() {
            Ok(waker) => wakers.push(waker)?,
            Err(_) => return Err(RunError::Read),
        }
    }
    Ok(wakers)
}

/// Serves a registry with the connections of some clients, over a new pool, until all are closed; beside an upstream
/// registry, where there is one. Prints `listening` with the port before the first and `served` with the number of
/// answers that were sent whole after the last.
fn serve_sets<R: Threads + Wait + Clock + Sync, W: Write, U: Upstream + Send + Sync>(
    rt: &R,
    start: &Start<'_, '_>,
    beside: Option<&Beside<'_, '_, U>>,
    sets: &mut Vec<Connections>,
    writer: &mut W,
) -> Result<(), RunError>
    requires options { IsWithin start.now.options.now }
    requires cells { ForSome beside (λ b. b.now.schemas.now.registry ≡ start.now.registry.now) }
{
    let alloc = start.alloc;
    let cache = ProgramCache::new(alloc, start.registry)?;
    let clients = start.options.clients as usize;
    let workers = clients + start.options.workers as usize;
    let (pool, mut seats, mut helpers) = SessionPool::new(alloc, &cache, clients, workers)?;
    let signals = Signals::new();
    let shared = Shared {
        alloc,
        registry: start.registry,
        pool: &pool,
        signals: &signals,
    };
    write_number(alloc, writer, "listening", u64::from(start.port))?;
    let answered = run_threads(rt, &shared, beside, &mut seats, &mut helpers, sets)?;
    write_number(alloc, writer, "served", answered)
}

/// Serves a registry on a listener, which is made non-blocking, over a new pool, until each client has accepted as many
/// connections as the options say, and all are closed. It prints `listening P`, with the port, before the first, and
/// `served N`, the number of answers that were sent whole, after the last.
///
/// `Read` where the listener has no port or cannot be watched, `Write` where a line could not be printed, `NoMemory`
/// where the service found no room to begin in.
pub fn serve_on<R: Net + Threads + Wait + Clock + Sync, W: Write>(
    rt: &R,
    alloc: Global,
    listener: &TcpListener,
    options: &ServeOptions,
    registry: &SharedRegistry,
    writer: &mut W,
) -> Result<(), RunError>
    requires { IsWithin options.now }
{
    let start = Start {
        alloc,
        options,
        registry,
        port: port_of(listener)?,
    };
    let mut sets = sets_of(rt, alloc, listener, options)?;
    let alone: Option<&Beside<'_, '_, NoUpstream>> = None;
    serve_sets(rt, &start, alone, &mut sets, writer)
}

/// Serves by the ids of an upstream registry, and then ends the questions to it.
fn serve_and_end<R: Threads + Wait + Clock + Sync, W: Write, U: Upstream + Send + Sync>(
    rt: &R,
    beside: &Beside<'_, '_, U>,
    port: u16,
    sets: &mut Vec<Connections>,
    writer: &mut W,
) -> Result<(), RunError> {
    let start = Start {
        alloc: beside.schemas.alloc(),
        options: beside.options,
        registry: beside.registry,
        port,
    };
    let served = serve_sets(rt, &start, Some(beside), sets, writer);
    beside.questions.queue.end(rt);
    served
}

/// Serves by the ids of an upstream registry, with these questions to it.
fn serve_between<
    'x,
    'r,
    R: Net + Threads + Wait + Clock + Sync,
    W: Write,
    U: Upstream + Send + Sync,
>(
    rt: &'x R,
    listener: &TcpListener,
    options: &'x ServeOptions,
    source: &'x Source<'x, 'r, U>,
    questions: &'x Questions<U>,
    writer: &mut W,
) -> Result<(), RunError>
    requires { IsWithin options.now }
{
    let alloc = source.schemas.alloc();
    let port = port_of(listener)?;
    let mut sets = sets_of(rt, alloc, listener, options)?;
    let watching = Watching {
        rt,
        wakers: wakers_of(alloc, &sets)?,
        notes: &questions.notes,
        is_logged: options.is_logged,
    };
    let beside = Beside {
        schemas: source.schemas,
        questions,
        options,
        registry: source.schemas.registry(),
    };
    let fetcher = Fetcher::new(&beside, source.upstream, &watching);
    let (fetched, served) = thread::join(
        rt,
        || run_fetchers(rt, fetcher),
        || serve_and_end(rt, &beside, port, &mut sets, writer),
    );
    fetched?;
    served
}

/// Serves as `serve_on` does, by the ids of an upstream registry, whose schemas are asked of it as they are needed. The
/// errors are those of `serve_on`.
pub fn serve_beside<R: Net + Threads + Wait + Clock + Sync, W: Write, U: Upstream + Send + Sync>(
    rt: &R,
    listener: &TcpListener,
    options: &ServeOptions,
    source: &Source<'_, '_, U>,
    writer: &mut W,
) -> Result<(), RunError>
    requires { IsWithin options.now }
{
    let alloc = source.schemas.alloc();
    let questions = Questions {
        queue: FetchQueue::new(alloc),
        notes: FetchNotes::new(alloc),
    };
    serve_between(rt, listener, options, source, &questions, writer)
}
