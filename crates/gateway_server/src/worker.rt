//! A worker's thread.

ghost use Rattle.session_pool.specs.Seats.{RestsWorker};

use crate::gate::WorkerGate;
use crate::shared::Shared;
use gateway::{SLICE, work};
use session_pool::WorkerSeat;
use std::sync::Wait;

/// What a worker's thread receives.
#[derive(Drop)]
pub(crate) struct Worker<'a, 'p> {
    pub(crate) shared: &'a Shared<'a, 'p>,
    pub(crate) seat: WorkerSeat<'p>,
    ghost rests: { RestsWorker shared.now.pool.now seat },
}

/// Runs a worker's thread: takes turns, and sleeps where nothing is ready, until the clients have ended.
pub(crate) fn run_worker<R: Wait>(rt: &R, worker: Worker<'_, '_>) {
    let Worker { shared, mut seat } = worker;
    let mut gate = WorkerGate::new(rt, shared.signals);
    work(rt, shared.pool, &mut seat, SLICE, &mut gate);
}
