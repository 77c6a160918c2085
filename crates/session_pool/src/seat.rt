//! A worker's seat: its own deque, and what it knows of each; what a seat has put and taken, and the rule of a deque.

ghost use Rattle.std.specs.Prelude.{◌++◌, ◌≡◌, ◌≤◌, IfOk, [], length};
ghost use Rattle.crossbeam_deque.specs.Handles.{worker_capacity, worker_flavor, worker_index, worker_port, worker_view};
ghost use Rattle.session_pool.specs.declared.limits.TheConstants.{MOST_KEPT};
ghost use Rattle.session_pool.specs.Tallies.{IsInOrder, IsSubsequence, tally};

use crate::limits::MOST_KEPT;
use crossbeam_deque::protocol::{Outcome, Protocol};
use crossbeam_deque::{Pass, Stealer, Worker};
use std::alloc::{AllocError, Global};
use std::collections::LinkedList;

/// A worker's own deque, and what it knows of each worker's.
#[derive(Drop)]
pub struct JobSeat {
    pub(crate) number: usize,
    pub(crate) own: Owner,
    // the numbers that were put and not taken back since the deque was last found empty
    pub(crate) kept: usize,
    pub(crate) passes: Vec<JobPass>,
    ghost fifo: { worker_flavor own ≡ 0 },
    ghost owner: { worker_port own ≡ 0 },
    ghost within: { kept ≤ MOST_KEPT },
    ghost index: { worker_index own ≤ length (worker_view own).put },
    ghost room: { MOST_KEPT ≤ worker_capacity own },
}

impl JobSeat {
    ghost use Rattle.session_pool.specs.JobSeats.{IsAlone, kept_by, number_of};

    /// Returns a worker's seat with an empty deque, and no passes yet.
    pub(crate) fn alone(alloc: Global, number: usize) -> Result<JobSeat, AllocError>
        ensures { IfOk result (IsAlone number) }
    {
        let own = Owner::fifo_as(alloc, MOST_KEPT)?;
        Ok(JobSeat {
            number,
            own,
            kept: 0,
            passes: Vec::new(alloc),
        })
    }

    /// Returns the index of its worker, from 0. It never changes.
    pub fn number(&self) -> usize
        ensures { result ≡ number_of self.now }
    {
        self.number
    }

    /// Returns how many numbers the worker has put and not taken back since it last found its own deque empty:
    /// `MOST_KEPT` at most.
    pub fn kept(&self) -> usize
        ensures kept { result ≡ kept_by self.now }
        ensures most { result ≤ MOST_KEPT }
    {
        self.kept
    }
}

/// What a seat has put into a deque and taken from it, first to last. No value of it is made.
pub struct Tally {
    pub put: LinkedList<u32>,
    pub taken: LinkedList<u32>,
}

/// The rule of a deque: each number was put as often as it was taken and is there, the owner alone puts, and numbers
/// leave in the order in which it puts them.
pub struct Balanced;

impl Protocol<u32, Tally> for Balanced {
    ghost holds = { IsInOrder };

    ghost first = { tally [] [] };

    ghost guest = { tally [] [] };
}

/// Numbers are put.
pub(crate) struct Put;

impl Outcome<u32, Tally> for Put {
    ghost then = { λ old slots new. new ≡ tally (old.put ++ slots) old.taken };
}

/// Numbers are taken.
pub(crate) struct Taken;

impl Outcome<u32, Tally> for Taken {
    ghost then = { λ old slots new. new ≡ tally old.put (old.taken ++ slots) };
}

/// Numbers are taken by the owner, who knows in which order it put them.
pub(crate) struct TakenInOrder;

impl Outcome<u32, Tally> for TakenInOrder {
    ghost then = { λ old slots new. (new ≡ tally old.put (old.taken ++ slots)) × IsSubsequence new.taken new.put };
}

/// A deque in the hands of its owner.
pub(crate) type Owner = Worker<u32, Global, Tally, Balanced>;

/// A deque as others see it.
pub(crate) type Thief = Stealer<u32, Global, Tally, Balanced>;

/// What a thief knows of a deque.
pub(crate) type JobPass = Pass<u32, Tally, Global>;
