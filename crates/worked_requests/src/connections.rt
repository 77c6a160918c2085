//! Requests that are sent over connections to a server in the same process.

use crate::printing::push_answer;
use crate::row::Row;
use gateway_server::{RunError, ServeOptions, serve_on};
use schema_registry::SharedRegistry;
use std::alloc::Global;
use std::io::{ErrorKind, Read, Write};
use std::net::{Net, Shutdown, SocketAddr, TcpListener, TcpStream};
use std::os::fd::OwnedFd;
use std::sync::Wait;
use std::thread::Threads;
use std::time::{Clock, Duration};
use std::{io, thread};

/// How many threads accept connections.
const CLIENTS: u32 = 2;

/// How many connections of each may be open at once.
const OPEN: u32 = 1_024;

/// How many workers there are beside them.
const WORKERS: u32 = 2;

/// How many seconds a call may wait for the other side at most.
const PATIENCE: u64 = 10;

/// How often an answer is read at most.
const MOST_READS: u32 = 65_536;

/// In how many pieces a request is sent, about.
const PIECES: usize = 3;

/// How often a connection is tried where none can be had.
const MOST_TRIES: u32 = 100;

/// Returns a connection to an address.
fn connected<R: Net<Stream = TcpStream>>(rt: &R, address: SocketAddr) -> io::Result<TcpStream> {
    let patience = Duration::from_secs(PATIENCE);
    for _try in 1..MOST_TRIES {
        if let Ok(stream) = TcpStream::connect_timeout(rt, &address, patience) {
            return Ok(stream);
        }
    }
    TcpStream::connect_timeout(rt, &address, patience)
}

/// Sends a request in pieces, as far as the other side takes it.
fn send(stream: &TcpStream, request: &[u8]) {
    let mut writer = stream;
    let piece = request.len() / PIECES + 1;
    for bytes in request.chunks(piece) {
        if writer.write_all(bytes).is_err() {
            return;
        }
    }
}

/// Reads all that comes until the other side ends. An error where the connection is reset: then bytes may be lost.
fn receive(alloc: Global, stream: &TcpStream) -> io::Result<Vec<u8>> {
    let mut reader = stream;
    let mut answer = Vec::new(alloc);
    let mut piece = [0u8; 4096];
    for _read in 0..MOST_READS {
        match reader.read(&mut piece) {
            Ok(0) => return Ok(answer),
            Ok(count) => answer.extend_from_slice(&piece[..count])?,
            Err(error) if error.kind() == ErrorKind::Interrupted => {}
            Err(error) => return Err(error),
        }
    }
    Err(io::Error::from(ErrorKind::TimedOut))
}

/// Sends a request over a connection, and returns its answer.
fn ask(alloc: Global, stream: &TcpStream, row: &Row) -> io::Result<Vec<u8>> {
    let patience = Some(Duration::from_secs(PATIENCE));
    stream.set_read_timeout(patience)?;
    stream.set_write_timeout(patience)?;
    stream.set_nodelay(true)?;
    send(stream, &row.request);
    if !row.is_open {
        let _ = stream.shutdown(Shutdown::Write);
    }
    receive(alloc, stream)
}

/// Stops calls from waiting for connections of a listener. (Linux lets `accept` fail at a socket that was shut down.)
fn stop(listener: &TcpListener) -> io::Result<()> {
    let socket = OwnedFd::from(listener.try_clone()?);
    TcpStream::from(socket).shutdown(Shutdown::Both)
}

/// Sends each request over a connection of its own, and makes as many connections more as are wanted, which end at
/// once. Returns the answers, and none for a request whose answer did not come to its end, or whose connection was
/// reset.
fn ask_all<R: Net<Stream = TcpStream>>(
    rt: &R,
    alloc: Global,
    address: SocketAddr,
    rows: &[Row],
    more: usize,
) -> io::Result<Vec<Option<Vec<u8>>>> {
    let mut answers = Vec::new(alloc);
    for row in rows {
        let stream = connected(rt, address)?;
        answers.push(ask(alloc, &stream, row).ok())?;
    }
    for _ in 0..more {
        connected(rt, address)?;
    }
    Ok(answers)
}

/// Sends each request as `ask_all` does. Where that fails, the server waits for no more connections.
fn ask_or_stop<R: Net<Stream = TcpStream>>(
    rt: &R,
    alloc: Global,
    listener: &TcpListener,
    address: SocketAddr,
    rows: &[Row],
    more: usize,
) -> io::Result<Vec<Option<Vec<u8>>>> {
    let answers = ask_all(rt, alloc, address, rows, more);
    if answers.is_err() {
        stop(listener)?;
    }
    answers
}

/// Returns what the server prints while it serves on a listener.
fn printed<R: Net + Threads + Wait + Clock + Sync>(
    rt: &R,
    alloc: Global,
    listener: &TcpListener,
    each: u32,
) -> Result<Vec<u8>, RunError> {
    let options = ServeOptions {
        clients: CLIENTS,
        workers: WORKERS,
        each,
        connections: OPEN,
        head_timeout: Duration::from_secs(PATIENCE),
        request_timeout: Duration::from_secs(PATIENCE),
        patience: Duration::from_secs(PATIENCE),
        persistence: None,
        is_logged: false,
    };
    let mut lines = Vec::new(alloc);
    let registry = SharedRegistry::new(alloc)?;
    serve_on(rt, alloc, listener, &options, &registry, &mut lines)?;
    Ok(lines)
}

/// Appends what the server printed after the line of its port.
fn push_printed(
    alloc: Global,
    output: &mut Vec<u8>,
    port: u16,
    lines: &[u8],
) -> Result<(), RunError> {
    let first = format!(in alloc; "listening {port}\n")?;
    match lines.strip_prefix(first.as_bytes()) {
        Some(rest) => Ok(output.extend_from_slice(rest)?),
        None => {
            output.extend_from_slice(b"DIFFERS what the server prints: ")?;
            push_answer(alloc, output, lines, true)
        }
    }
}

/// Appends a line for each answer that differs from the one that was returned in memory.
fn push_differences(
    alloc: Global,
    output: &mut Vec<u8>,
    expected: &[Vec<u8>],
    answers: &[Option<Vec<u8>>],
) -> Result<(), RunError> {
    let nothing = Vec::new(alloc);
    for (at, (expected, answer)) in expected.iter().zip(answers).enumerate() {
        let answer = answer.as_ref().unwrap_or(&nothing);
        if answer.as_slice() != expected.as_slice() {
            let start = format!(in alloc; "DIFFERS over a connection, row {at}: ")?;
            output.extend_from_slice(start.as_bytes())?;
            push_answer(alloc, output, answer, true)?;
        }
    }
    Ok(())
}

/// Sends each request over a connection to a server with a new registry. Appends how many it answered, and a line for
/// each answer that differs from the one that was returned in memory.
pub(crate) fn push_connections<
    R: Net<Listener = TcpListener, Stream = TcpStream> + Threads + Wait + Clock + Sync,
>(
    rt: &R,
    alloc: Global,
    output: &mut Vec<u8>,
    rows: &[Row],
    expected: &[Vec<u8>],
) -> Result<(), RunError> {
    let listener = TcpListener::bind(rt, "127.0.0.1:0").map_err(|_| RunError::Read)?;
    let address = listener.local_addr().map_err(|_| RunError::Read)?;
    let each = (rows.len() / CLIENTS as usize).saturating_add(1);
    let accepted = each.saturating_mul(CLIENTS as usize);
    let more = accepted.saturating_sub(rows.len());
    let each = u32::try_from(each).map_err(|_| RunError::Read)?;
    let (lines, answers) = thread::join(
        rt,
        || printed(rt, alloc, &listener, each),
        || ask_or_stop(rt, alloc, &listener, address, rows, more),
    );
    let answers = answers.map_err(|_| RunError::Read)?;
    push_printed(alloc, output, address.port(), &lines?)?;
    push_differences(alloc, output, expected, &answers)
}
