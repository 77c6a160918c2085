//! The threads of a service.

ghost use Rattle.std.specs.Option.{ForSome};
ghost use Rattle.std.specs.Prelude.{◌≡◌, All};
ghost use Rattle.session_pool.specs.Seats.{IsNewClient, IsNewWorker};

use crate::Connections;
use crate::beside::Beside;
use crate::client::{Client, run_client};
use crate::shared::Shared;
use crate::worker::{Worker, run_worker};
use gateway::{pop_client, pop_worker};
use session_pool::{ClientSeat, WorkerSeat};
use std::alloc::AllocError;
use std::sync::Wait;
use std::thread;
use std::thread::Threads;
use std::time::Clock;
use upstream_schemas::Upstream;

/// Returns what each client receives: its connections, its seat, and one of the workers'.
fn clients_of<'a, 'p, 'r, U: Upstream>(
    shared: &'a Shared<'a, 'p>,
    beside: Option<&'a Beside<'a, 'r, U>>,
    seats: &mut Vec<ClientSeat<'p>>,
    helpers: &mut Vec<WorkerSeat<'p>>,
    sets: &mut Vec<Connections>,
) -> Result<Vec<Client<'a, 'p, 'r, U>>, AllocError>
    requires cells { ForSome beside (λ b. b.now.schemas.now.registry ≡ shared.now.registry.now) }
    requires seats { All (IsNewClient shared.now.pool.now) seats.old.items }
    requires helpers { All (IsNewWorker shared.now.pool.now) helpers.old.items }
    ensures { All (IsNewWorker shared.now.pool.now) helpers.new.items }
{
    let mut clients = Vec::new(shared.alloc);
    for _ in 0..seats.len() {
        let Some(seat) = pop_client(shared.pool, seats) else {
            return Ok(clients);
        };
        let Some(helper) = pop_worker(shared.pool, helpers) else {
            return Ok(clients);
        };
        let Some(connections) = sets.pop() else {
            return Ok(clients);
        };
        clients.push(Client {
            shared,
            beside,
            seat,
            helper,
            connections,
        })?;
    }
    Ok(clients)
}

/// Returns what each worker receives.
fn workers_of<'a, 'p>(
    shared: &'a Shared<'a, 'p>,
    seats: &mut Vec<WorkerSeat<'p>>,
) -> Result<Vec<Worker<'a, 'p>>, AllocError>
    requires { All (IsNewWorker shared.now.pool.now) seats.old.items }
{
    let mut workers = Vec::new(shared.alloc);
    for _ in 0..seats.len() {
        let Some(seat) = pop_worker(shared.pool, seats) else {
            return Ok(workers);
        };
        workers.push(Worker { shared, seat })?;
    }
    Ok(workers)
}

/// Runs each worker in a thread of its own, and joins them all.
fn run_workers<R: Threads + Wait + Sync>(
    rt: &R,
    workers: Vec<Worker<'_, '_>>,
) -> Result<(), AllocError> {
    thread::map_vec(
        rt,
        workers,
        &|worker: Worker<'_, '_>| run_worker(rt, worker),
    )?;
    Ok(())
}

/// Runs each client in a thread of its own, joins them all, and then ends the workers. Returns how many requests were
/// answered.
fn run_clients<R: Threads + Wait + Clock + Sync, U: Upstream + Send + Sync>(
    rt: &R,
    shared: &Shared<'_, '_>,
    clients: Vec<Client<'_, '_, '_, U>>,
) -> Result<u64, AllocError> {
    let counts = thread::map_vec(
        rt,
        clients,
        &|client: Client<'_, '_, '_, U>| run_client(rt, client),
    );
    shared.signals.end();
    let mut answered: u64 = 0;
    for count in counts? {
        answered = answered.saturating_add(count?);
    }
    Ok(answered)
}

/// Runs clients and workers at once. Returns how many requests were answered.
fn run_all<R: Threads + Wait + Clock + Sync, U: Upstream + Send + Sync>(
    rt: &R,
    shared: &Shared<'_, '_>,
    clients: Vec<Client<'_, '_, '_, U>>,
    workers: Vec<Worker<'_, '_>>,
) -> Result<u64, AllocError> {
    let (worked, answered) = thread::join(
        rt,
        || run_workers(rt, workers),
        || run_clients(rt, shared, clients),
    );
    worked?;
    answered
}

/// Serves with a thread for each client and for each seat that is then left of the workers'. Returns how many
/// requests were answered.
pub(crate) fn run_threads<'a, 'p, 'r, R: Threads + Wait + Clock + Sync, U: Upstream + Send + Sync>(
    rt: &R,
    shared: &'a Shared<'a, 'p>,
    beside: Option<&'a Beside<'a, 'r, U>>,
    seats: &mut Vec<ClientSeat<'p>>,
    helpers: &mut Vec<WorkerSeat<'p>>,
    sets: &mut Vec<Connections>,
) -> Result<u64, AllocError>
    requires cells { ForSome beside (λ b. b.now.schemas.now.registry ≡ shared.now.registry.now) }
    requires seats { All (IsNewClient shared.now.pool.now) seats.old.items }
    requires helpers { All (IsNewWorker shared.now.pool.now) helpers.old.items }
{
    let clients = clients_of(shared, beside, seats, helpers, sets)?;
    let workers = workers_of(shared, helpers)?;
    run_all(rt, shared, clients, workers)
}
