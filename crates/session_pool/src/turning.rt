//! A worker's turn: how it comes to a session that is ready, by its own jobs, by one that it steals or by a scan, and
//! runs it.

ghost use Rattle.std.specs.Prelude.{◌++◌, ◌<◌, ◌≡◌, ◌≤◌, IfOk, IfSome, MatchOption, Some, false, length, true, vec_len, ℕ};
ghost use Rattle.session_pool_slots.specs.Results.{HasNoted};
ghost use Rattle.session_pool_slots.specs.Words.{slots};
ghost use Rattle.session_pool_slots.specs.Account.{has_ended};
ghost use Rattle.session_pool_slots.specs.Seats.{IsSeatOf as IsSlotSeatOf, Rests as IsAtRest};
ghost use Rattle.session_pool_slots.specs.Working.{Runs};
ghost use Rattle.session_pool.specs.JobSeats.{AreAlone, AreOfSeats, IsSeatOf, workers_of};
ghost use Rattle.session_pool.specs.Turning.{Calls};
ghost use Rattle.crossbeam_deque.specs.Handles.{IsPassOf, stealer_deque, view};
ghost use Rattle.session_pool.specs.declared.limits.TheConstants.{MOST_KEPT, MOST_WORKERS};
ghost use Rattle.session_pool.specs.Passes.{AreEmptyPasses, listed};
ghost use Rattle.session_pool.specs.Tallies.{IsSubsequence};

use crate::limits::{MOST_KEPT, MOST_WORKERS};
use crate::pool::{SessionPool, WorkerSeat};
use crate::seat::{JobPass, JobSeat, Put, Taken, TakenInOrder, Thief};
use crossbeam_deque::Steal;
use session_pool_slots::{READY, RunSlice, SLOTS, SlotSeat};
use std::alloc::{AllocError, Global};

/// What a turn came to.
#[derive(Clone, Copy, Debug, PartialEq, Eq)]
pub enum Turn {
    /// No slot was found ready.
    Idle,
    /// The session of a slot ran, for this many rows.
    Ran { slot: u32, rows: u64 },
}

impl<'p> SessionPool<'p> {
    ghost use Rattle.session_pool.specs.Seats.{RestsWorker};
    ghost use Rattle.session_pool.specs.Order.{PutsReady, TurnsInOrder};
    ghost use Rattle.session_pool.specs.Turning.{Turned};
    ghost use Rattle.session_pool_slots.specs.Seats.{knows};

    /// Runs one session that is ready for a slice of at most `limit` rows.
    ///
    /// It finds one by one of the worker's own jobs, else by one that it steals from each other worker in turn, or
    /// else as the first slot that a scan finds ready. With no breakpoint, a session that has an end within these
    /// rows has ended then. It waits for no thread.
    pub fn turn(&self, seat: &mut WorkerSeat<'p>, limit: u64) -> Turn
        requires { RestsWorker self.now seat.old }
        ensures seat { RestsWorker self.now seat.new }
        ensures turned { Turned seat.old limit result seat.new }
        ensures order { TurnsInOrder self.now seat.old limit result seat.new }
    {
        self.turn_at(seat, limit, &mut |_slot: u32| {})
    }

    /// Runs one session that is ready, as `turn` does. The closure is called once, with its slot, after its session was
    /// taken and before its first row; it is not called where no slot was found ready.
    pub fn turn_at<F: FnMut(u32)>(
        &self,
        seat: &mut WorkerSeat<'p>,
        limit: u64,
        taken: &mut F,
    ) -> Turn
        requires seat { RestsWorker self.now seat.old }
        requires callable { (slot : ℕ) → slot < slots → F.pre taken.old slot }
        ensures seat { RestsWorker self.now seat.new }
        ensures turned { Turned seat.old limit result seat.new }
        ensures order { TurnsInOrder self.now seat.old limit result seat.new }
        ensures called { Calls result (λ slot. F.step taken.old slot tt taken.new) (taken.new ≡ taken.old) }
    {
        let Some(slot) = self.find(seat) else {
            return Turn::Idle;
        };
        taken(slot);
        let slice = self.run(seat, slot, limit);
        Turn::Ran {
            slot,
            rows: slice.rows,
        }
    }

    /// Runs the session that the worker has taken, and gives it back. Where it is left ready its slot is put as a job.
    fn run(&self, seat: &mut WorkerSeat<'p>, slot: u32, limit: u64) -> RunSlice
        requires jobs { IsSeatOf self.now.jobs seat.old.jobs }
        requires seat { IsSlotSeatOf self.now.slots seat.old.slots }
        requires note { HasNoted has_ended seat.old.slots.seat.me slot }
        ensures seat { RestsWorker self.now seat.new }
        ensures ran { Runs (knows seat.old.slots) slot limit result (knows seat.new.slots) }
        ensures puts { PutsReady result.word slot seat.old.jobs seat.new.jobs }
    {
        let slice = self.slots.run(&mut seat.slots, slot, limit);
        if slice.word == READY {
            let _put = self.jobs.put(&mut seat.jobs, slot);
        }
        slice
    }
}

impl<'p> SessionPool<'p> {
    ghost use Rattle.session_pool.specs.Seats.{RestsWorker};
    ghost use Rattle.session_pool.specs.Order.{Comes, JobsMiss, Leads, Misses, OwnLeads, OwnMisses, KeepsFurther, KeepsOne, Scans, StealsLead, StealsMiss};
    ghost use Rattle.session_pool.specs.Searching.{FindsByJobs, FindsReady, LooksOn};

    /// Takes a session that is ready, and returns the index of its slot: by one of the worker's own jobs, else by one
    /// that it steals from each other worker in turn, else the first that a scan of all slots finds. `None` where
    /// none was found ready.
    pub(crate) fn find(&self, seat: &mut WorkerSeat<'p>) -> Option<u32>
        requires { RestsWorker self.now seat.old }
        ensures jobs { IsSeatOf self.now.jobs seat.new.jobs }
        ensures seat { IsSlotSeatOf self.now.slots seat.new.slots }
        ensures found { FindsReady seat.old.slots result seat.new.slots }
        ensures order { Comes self.now seat.old result seat.new }
    {
        match self.find_by_jobs(seat) {
            Some(slot) => Some(slot),
            None => self.scan(seat),
        }
    }

    /// Takes a session by one of the worker's own jobs, or by one that it steals.
    fn find_by_jobs(&self, seat: &mut WorkerSeat<'p>) -> Option<u32>
        requires { RestsWorker self.now seat.old }
        ensures jobs { IsSeatOf self.now.jobs seat.new.jobs }
        ensures seat { IsSlotSeatOf self.now.slots seat.new.slots }
        ensures found { FindsByJobs seat.old.slots result seat.new.slots }
        ensures order { MatchOption result
            (JobsMiss (workers_of self.now.jobs) seat.old seat.new)
            (λ slot. Comes self.now seat.old (Some slot) seat.new) }
    {
        match self.take_own(seat) {
            Some(slot) => Some(slot),
            None => self.steal_in_turn(seat),
        }
    }

    /// Takes a session by one of the worker's own jobs.
    fn take_own(&self, seat: &mut WorkerSeat<'p>) -> Option<u32>
        requires { RestsWorker self.now seat.old }
        ensures jobs { IsSeatOf self.now.jobs seat.new.jobs }
        ensures seat { IsSlotSeatOf self.now.slots seat.new.slots }
        ensures found { FindsByJobs seat.old.slots result seat.new.slots }
        ensures order { MatchOption result (OwnMisses seat.old seat.new) (λ slot. OwnLeads slot seat.old seat.new) }
    {
        let slot = self.jobs.take(&mut seat.jobs)?;
        self.take_job(&mut seat.slots, slot)
    }

    /// Takes a session by one job of another worker, each in turn.
    fn steal_in_turn(&self, seat: &mut WorkerSeat<'p>) -> Option<u32>
        requires { RestsWorker self.now seat.old }
        ensures jobs { IsSeatOf self.now.jobs seat.new.jobs }
        ensures seat { IsSlotSeatOf self.now.slots seat.new.slots }
        ensures found { FindsByJobs seat.old.slots result seat.new.slots }
        ensures order { MatchOption result
            (StealsMiss (workers_of self.now.jobs) seat.old seat.new)
            (λ slot. StealsLead (workers_of self.now.jobs) slot seat.old seat.new) }
    {
        let own = seat.jobs.number;
        for from in 0..self.jobs.workers() {
            if from == own {
                continue;
            }
            if let Some(slot) = self.jobs.steal(&mut seat.jobs, from) {
                if let Some(slot) = self.take_job(&mut seat.slots, slot) {
                    return Some(slot);
                }
            }
        }
        None
    }

    /// Takes the session of a job's slot, where it is ready. An index that is no slot's is ignored.
    fn take_job(&self, seat: &mut SlotSeat<'p>, slot: u32) -> Option<u32>
        requires { IsAtRest self.now.slots seat.old }
        ensures seat { IsSlotSeatOf self.now.slots seat.new }
        ensures found { FindsByJobs seat.old result seat.new }
        ensures once { MatchOption result
            (Misses (Some slot) seat.old seat.new)
            (λ found. (found ≡ slot) × Leads slot seat.old seat.new) }
    {
        if slot as usize >= SLOTS {
            return None;
        }
        if self.slots.take_at(seat, slot) != READY {
            return None;
        }
        Some(slot)
    }

    /// Takes the session of the first slot that is ready, and puts each further one that is ready as a job. `None`
    /// where no slot was found ready.
    fn scan(&self, seat: &mut WorkerSeat<'p>) -> Option<u32>
        requires { RestsWorker self.now seat.old }
        ensures jobs { IsSeatOf self.now.jobs seat.new.jobs }
        ensures seat { IsSlotSeatOf self.now.slots seat.new.slots }
        ensures found { FindsReady seat.old.slots result seat.new.slots }
        ensures order { Scans result seat.old seat.new }
    {
        let slot = self.slots.scan(&mut seat.slots)?;
        self.keep_further(seat, slot + 1);
        Some(slot)
    }

    /// Looks at each slot from one on, in order, and puts those that are ready as jobs, as far as there is room.
    fn keep_further(&self, seat: &mut WorkerSeat<'p>, from: u32)
        requires jobs { IsSeatOf self.now.jobs seat.old.jobs }
        requires seat { IsSlotSeatOf self.now.slots seat.old.slots }
        requires from { from ≤ slots }
        ensures jobs { IsSeatOf self.now.jobs seat.new.jobs }
        ensures seat { IsSlotSeatOf self.now.slots seat.new.slots }
        ensures looks { LooksOn seat.old.slots seat.new.slots }
        ensures keeps { KeepsFurther from slots seat.old seat.new }
    {
        for slot in from..SLOTS as u32 {
            self.keep_one(seat, slot);
        }
    }

    /// Looks at a slot, and puts it as a job if it is ready and there is room.
    fn keep_one(&self, seat: &mut WorkerSeat<'p>, slot: u32)
        requires jobs { IsSeatOf self.now.jobs seat.old.jobs }
        requires seat { IsSlotSeatOf self.now.slots seat.old.slots }
        requires slot { slot < slots }
        ensures jobs { IsSeatOf self.now.jobs seat.new.jobs }
        ensures seat { IsSlotSeatOf self.now.slots seat.new.slots }
        ensures keeps { KeepsOne slot seat.old seat.new }
    {
        if self.slots.look(&mut seat.slots, slot) == READY {
            let _put = self.jobs.put(&mut seat.jobs, slot);
        }
    }
}

/// The deques of some workers, each of which the others steal from.
#[derive(Drop)]
pub struct Jobs {
    stealers: Vec<Thief>,
}

/// Returns the seats of some workers, with no passes yet.
fn seats_alone(alloc: Global, workers: usize) -> Result<Vec<JobSeat>, AllocError>
    ensures length { IfOk result (λ seats. vec_len seats ≡ workers) }
    ensures alone { IfOk result (λ seats. AreAlone seats.items) }
{
    let mut seats = Vec::new(alloc);
    for number in 0..workers {
        seats.push(JobSeat::alone(alloc, number)?)?;
    }
    Ok(seats)
}

/// Returns a stealer of each seat's deque, in order.
fn stealers_of(alloc: Global, seats: &[JobSeat]) -> Result<Vec<Thief>, AllocError>
    ensures length { IfOk result (λ stealers. vec_len stealers ≡ length seats.now) }
    ensures deques { IfOk result (λ stealers. AreOfSeats stealers.items seats.now) }
{
    let mut stealers = Vec::new(alloc);
    for number in 0..seats.len() {
        stealers.push(seats[number].own.stealer()?)?;
    }
    Ok(stealers)
}

/// Returns a pass for each deque, which has taken nothing.
fn passes_of(alloc: Global, stealers: &[Thief]) -> Result<Vec<JobPass>, AllocError>
    ensures length { IfOk result (λ passes. vec_len passes ≡ length stealers.now) }
    ensures passes { IfOk result (λ passes. AreEmptyPasses stealers.now passes.items) }
{
    let mut passes = Vec::new(alloc);
    for number in 0..stealers.len() {
        passes.push(stealers[number].pass())?;
    }
    Ok(passes)
}

/// Takes the oldest number of a deque, as a thief. `None` where it was found empty, or another was faster.
fn steal_one(stealer: &Thief, pass: &mut JobPass) -> Option<u32>
    requires { IsPassOf (stealer_deque stealer.now) pass.old }
    ensures pass { IsPassOf (stealer_deque stealer.now) pass.new }
    ensures stolen { (view pass.new).taken ≡ (view pass.old).taken ++ listed result }
{
    match stealer.steal_as::<Taken>(pass) {
        Steal::Success(slot) => Some(slot),
        Steal::Empty | Steal::Retry => None,
    }
}

impl Jobs {
    ghost use Rattle.session_pool.specs.JobSeats.{IsSeatOf, kept_by, put_by, taken_by, workers_of};
    ghost use Rattle.session_pool.specs.Calls.{AreNew, HasNoRoom, Puts, Stays, Steals, Takes};

    /// Returns empty deques for some workers, 1 to `MOST_WORKERS`, and the seat of each, which is numbered by its
    /// index.
    pub fn new(alloc: Global, workers: usize) -> Result<(Jobs, Vec<JobSeat>), AllocError>
        requires { (1 ≤ workers) × (workers ≤ MOST_WORKERS) }
        ensures count { IfOk result (λ made. vec_len made.1 ≡ workers) }
        ensures new { IfOk result (λ made. AreNew workers made.0 made.1.items) }
    {
        let mut seats = seats_alone(alloc, workers)?;
        let stealers = stealers_of(alloc, &seats)?;
        let jobs = Jobs { stealers };
        for number in 0..workers {
            seats[number].passes = passes_of(alloc, &jobs.stealers)?;
        }
        Ok((jobs, seats))
    }

    /// Returns the number of workers.
    pub fn workers(&self) -> usize
        ensures { result ≡ workers_of self.now }
    {
        self.stealers.len()
    }

    /// Puts a number into the worker's own deque, and returns whether it was put. It is not where the worker keeps
    /// `MOST_KEPT`, nor where memory ran out, which it does at none of the first `MOST_KEPT` numbers that are put: then
    /// nothing has changed.
    pub fn put(&self, seat: &mut JobSeat, slot: u32) -> bool
        requires seat { IsSeatOf self.now seat.old }
        ensures seat { IsSeatOf self.now seat.new }
        ensures put { result ≡ true → Puts slot seat.old seat.new }
        ensures stays { result ≡ false → Stays seat.old seat.new }
        ensures room { result ≡ false → HasNoRoom seat.old }
        ensures full { kept_by seat.old ≡ MOST_KEPT → result ≡ false }
    {
        if seat.kept >= MOST_KEPT {
            return false;
        }
        if seat.own.push_as::<Put>(slot).is_err() {
            return false;
        }
        seat.kept += 1;
        true
    }

    /// Takes the oldest number of the worker's own deque: all that it takes comes in the order in which it was put.
    /// `None` where the deque was found empty.
    pub fn take(&self, seat: &mut JobSeat) -> Option<u32>
        requires seat { IsSeatOf self.now seat.old }
        ensures seat { IsSeatOf self.now seat.new }
        ensures taken { Takes result seat.old seat.new }
        ensures order { IfSome result (λ _. IsSubsequence (taken_by seat.new) (put_by seat.new)) }
    {
        let taken = seat.own.pop_as::<TakenInOrder>();
        seat.kept = match taken {
            Some(_) => seat.kept.saturating_sub(1),
            None => 0,
        };
        taken
    }

    /// Takes the oldest number of a worker's deque, as a thief; `None` where it was found empty, or another was faster.
    pub fn steal(&self, seat: &mut JobSeat, from: usize) -> Option<u32>
        requires seat { IsSeatOf self.now seat.old }
        requires from { from < workers_of self.now }
        ensures seat { IsSeatOf self.now seat.new }
        ensures stolen { Steals from result seat.old seat.new }
    {
        steal_one(&self.stealers[from], &mut seat.passes[from])
    }
}
