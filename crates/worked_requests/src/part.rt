//! The parts of the input, each with a registry of its own.

ghost use Rattle.std.specs.Prelude.{All};
ghost use Rattle.session_pool.specs.Seats.{IsNewClient, IsNewWorker};

use crate::connections::push_connections;
use crate::manners::{push_closed, push_row};
use crate::row::{Row, row_of};
use crate::service::Service;
use gateway::{App, Helping, pop_client, pop_worker};
use gateway_requests::Routes;
use gateway_server::RunError;
use program_cache::ProgramCache;
use schema_registry::SharedRegistry;
use session_pool::{ClientSeat, SessionPool, WorkerSeat};
use std::alloc::Global;
use std::net::{Net, TcpListener, TcpStream};
use std::sync::Wait;
use std::thread::Threads;
use std::time::Clock;

/// The line of a title, and the rows under it.
#[derive(Drop)]
pub(crate) struct Part {
    title: String,
    rows: Vec<Row>,
}

/// Returns the part of a title and the lines under it.
fn part_of(alloc: Global, text: &str) -> Result<Part, RunError> {
    let mut lines = text.split('\n');
    let title = String::from_str(alloc, lines.next().unwrap_or(""))?;
    let mut rows = Vec::new(alloc);
    for line in lines {
        if !line.is_empty() {
            rows.push(row_of(alloc, line)?)?;
        }
    }
    Ok(Part { title, rows })
}

/// Returns the parts of a text.
pub(crate) fn parts_of(alloc: Global, text: &str) -> Result<Vec<Part>, RunError> {
    let text = text.strip_prefix("# ").unwrap_or(text);
    let mut parts = Vec::new(alloc);
    for part in text.split("\n# ") {
        parts.push(part_of(alloc, part)?)?;
    }
    Ok(parts)
}

/// Appends the lines of rows that are answered by a service in memory. Returns the answers.
fn push_rows<R: Wait>(
    rt: &R,
    alloc: Global,
    output: &mut Vec<u8>,
    rows: &[Row],
    service: &mut Service<'_, '_>,
) -> Result<Vec<Vec<u8>>, RunError> {
    let mut answers = Vec::new(alloc);
    for row in rows {
        answers.push(push_row(rt, alloc, output, service, row)?)?;
    }
    push_closed(rt, alloc, output, service)?;
    Ok(answers)
}

/// Returns a service that answers by sessions of a pool, which run while their answers are waited for. The error is
/// that memory ran out, or that no seat is left.
fn service_of<'a, 'p>(
    alloc: Global,
    app: App<'a, 'p>,
    seats: &mut Vec<ClientSeat<'p>>,
    helpers: &mut Vec<WorkerSeat<'p>>,
) -> Result<Service<'a, 'p>, RunError>
    requires seats { All (IsNewClient app.pool.now) seats.old.items }
    requires helpers { All (IsNewWorker app.pool.now) helpers.old.items }
{
    let pool = app.pool;
    let Some(seat) = pop_client(pool, seats) else {
        return Err(RunError::Read);
    };
    let Some(helper) = pop_worker(pool, helpers) else {
        return Err(RunError::Read);
    };
    let gate = Helping::new(pool, helper);
    let routes = Routes::new(alloc)?;
    Ok(Service::new(app, routes, seat, gate))
}

/// Appends the lines of rows that are answered in memory, over a new registry. Returns the answers.
fn push_in_memory<R: Wait>(
    rt: &R,
    alloc: Global,
    output: &mut Vec<u8>,
    rows: &[Row],
) -> Result<Vec<Vec<u8>>, RunError> {
    let registry = SharedRegistry::new(alloc)?;
    let cache = ProgramCache::new(alloc, &registry)?;
    let (pool, mut seats, mut helpers) = SessionPool::new(alloc, &cache, 1, 1)?;
    let app = App::new(alloc, &registry, &cache, &pool)?;
    let mut service = service_of(alloc, app, &mut seats, &mut helpers)?;
    push_rows(rt, alloc, output, rows, &mut service)
}

/// Appends the title of a part, the lines of its answers, and how many requests were answered over connections.
pub(crate) fn push_part<
    R: Net<Listener = TcpListener, Stream = TcpStream> + Threads + Wait + Clock + Sync,
>(rt: &R, alloc: Global, output: &mut Vec<u8>, part: &Part) -> Result<(), RunError> {
    let title = part.title.as_str();
    let line = format!(in alloc; "# {title}\n")?;
    output.extend_from_slice(line.as_bytes())?;
    let answers = push_in_memory(rt, alloc, output, &part.rows)?;
    push_connections(rt, alloc, output, &part.rows, &answers)
}
