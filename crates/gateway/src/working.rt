//! What a worker does; a gate by which a client runs sessions while it waits; and seats that are handed out one by one.

ghost use Rattle.session_pool.specs.Seats.{IsNewClient, IsNewWorker, Rests, RestsWorker};
ghost use Rattle.std.specs.Prelude.{◌++◌, ◌∷◌, ◌≡◌, All, IfNone, IfSome, IsTrue, []};

use gateway_core::{Gate, Place};
use session_pool::{ClientSeat, SessionPool, Turn, WorkerSeat};
use std::sync::Wait;

/// Takes turns of at most `limit` rows, until the gate says no.
///
/// It asks the gate before each turn, and ends where that says no; and once it has taken a session, before the first
/// row, and ends after that turn where it says no.
pub fn work<'p, R: Wait, G: Gate>(
    rt: &R,
    pool: &SessionPool<'p>,
    seat: &mut WorkerSeat<'p>,
    limit: u64,
    gate: &mut G,
)
    requires { RestsWorker pool.now seat.old }
    ensures { RestsWorker pool.now seat.new }
{
    for _ in rt.forever() {
        if !gate.at(Place::Turn) {
            return;
        }
        let mut goes_on = true;
        pool.turn_at(
            seat,
            limit,
            &mut |slot: u32| {
                goes_on = gate.at(Place::Inside { slot });
            },
        );
        if !goes_on {
            return;
        }
    }
    unreachable!()
}

/// The number of rows that a client's turn takes at most.
///
/// This limit is ours: what a plan finds is used where all its rows are within one turn, so a message of 16 MiB
/// should be; rows that are found ahead take some milliseconds a million, and those that are taken one by one up to a
/// tenth of a second.
pub const SLICE: u64 = 10_000_000;

/// A gate that takes a turn each time it is asked. It always says yes.
#[derive(Drop)]
pub struct Helping<'a, 'p> {
    pool: &'a SessionPool<'p>,
    seat: WorkerSeat<'p>,
    ghost rests: { RestsWorker pool.now seat },
}

impl<'a, 'p> Helping<'a, 'p> {
    /// Returns a gate that takes turns by a worker's seat of the pool.
    pub fn new(pool: &'a SessionPool<'p>, seat: WorkerSeat<'p>) -> Helping<'a, 'p>
        requires { RestsWorker pool.now seat }
    {
        Helping { pool, seat }
    }

    /// Takes a turn of at most `SLICE` rows.
    pub fn turn(&mut self) -> Turn {
        self.pool.turn(&mut self.seat, SLICE)
    }
}

impl<'a, 'p> Gate for Helping<'a, 'p> {
    ghost says = { λ old place answer new. IsTrue answer };

    fn at(&mut self, _place: Place) -> bool {
        self.turn();
        true
    }
}

/// Takes out the last of some clients' seats. `None` where none is left. `pool` is read by the clauses alone.
pub fn pop_client<'p>(
    pool: &SessionPool<'p>,
    seats: &mut Vec<ClientSeat<'p>>,
) -> Option<ClientSeat<'p>>
    requires { All (IsNewClient pool.now) seats.old.items }
    ensures seat { IfSome result (Rests pool.now) }
    ensures others { All (IsNewClient pool.now) seats.new.items }
    ensures last { IfSome result (λ seat. seats.old.items ≡ seats.new.items ++ seat ∷ []) }
    ensures none { IfNone result (seats.old.items ≡ []) }
{
    seats.pop()
}

/// Takes out the last of some workers' seats. `None` where none is left. `pool` is read by the clauses alone.
pub fn pop_worker<'p>(
    pool: &SessionPool<'p>,
    seats: &mut Vec<WorkerSeat<'p>>,
) -> Option<WorkerSeat<'p>>
    requires { All (IsNewWorker pool.now) seats.old.items }
    ensures seat { IfSome result (RestsWorker pool.now) }
    ensures others { All (IsNewWorker pool.now) seats.new.items }
    ensures last { IfSome result (λ seat. seats.old.items ≡ seats.new.items ++ seat ∷ []) }
    ensures none { IfNone result (seats.old.items ≡ []) }
{
    seats.pop()
}
