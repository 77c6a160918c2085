//! Numbers that are put, taken and stolen.

ghost use Rattle.session_pool.specs.JobSeats.{IsSeatOf, workers_of};
ghost use Rattle.std.specs.Prelude.{◌<◌, All};

use crate::same::same;
use session_pool::{JobSeat, Jobs, MOST_KEPT};
use std::alloc::{AllocError, Global};
use std::process::Abort;
use std::test::Fail;
use std::thread;

/// Takes out the last of some workers' seats.
fn last(rt: &impl Abort, jobs: &Jobs, seats: &mut Vec<JobSeat>) -> JobSeat
    requires { All (IsSeatOf jobs.now) seats.old.items }
    ensures seat { IsSeatOf jobs.now result }
    ensures others { All (IsSeatOf jobs.now) seats.new.items }
{
    match seats.pop() {
        Some(seat) => seat,
        None => panic!(rt; "no worker's seat is left"),
    }
}

#[test]
fn a_number_is_stolen_or_taken(rt: HostRuntime) -> Result<(), Fail> {
    let (jobs, mut seats) = Jobs::new(rt.alloc(), 2)?;
    let mut one = last(&rt, &jobs, &mut seats);
    let mut zero = last(&rt, &jobs, &mut seats);
    same(
        &rt,
        (zero.number(), one.number(), jobs.workers()),
        (0, 1, 2),
    );
    same(&rt, jobs.put(&mut zero, 7), true);
    same(&rt, jobs.steal(&mut one, 0), Some(7));
    same(&rt, jobs.put(&mut zero, 8), true);
    same(&rt, jobs.take(&mut zero), Some(8));
    same(&rt, jobs.take(&mut zero), None);
    same(&rt, jobs.steal(&mut one, 0), None);
    same(&rt, (zero.kept(), one.kept()), (0, 0));
    Ok(())
}

/// Puts as many numbers as are asked for, 0 first, until one is refused. Returns how many were put.
fn put_many(jobs: &Jobs, seat: &mut JobSeat, many: u32) -> u32
    requires { IsSeatOf jobs.now seat.old }
    ensures { IsSeatOf jobs.now seat.new }
{
    for slot in 0..many {
        if !jobs.put(seat, slot) {
            return slot;
        }
    }
    many
}

#[test]
fn one_number_too_many_is_refused(rt: HostRuntime) -> Result<(), Fail> {
    let (jobs, mut seats) = Jobs::new(rt.alloc(), 1)?;
    let mut zero = last(&rt, &jobs, &mut seats);
    let most = MOST_KEPT as u32;
    same(&rt, put_many(&jobs, &mut zero, most + 1), most);
    same(&rt, jobs.put(&mut zero, most), false);
    same(&rt, jobs.take(&mut zero), Some(0));
    same(&rt, jobs.put(&mut zero, most), true);
    same(&rt, jobs.put(&mut zero, most), false);
    Ok(())
}

/// Tries `tries` times to steal from a worker, and returns what was stolen.
fn stolen(
    alloc: Global,
    jobs: &Jobs,
    mut seat: JobSeat,
    from: usize,
    tries: u32,
) -> Result<Vec<u32>, AllocError>
    requires seat { IsSeatOf jobs.now seat }
    requires from { from < workers_of jobs.now }
{
    let mut slots = Vec::new(alloc);
    for _ in 0..tries {
        if let Some(slot) = jobs.steal(&mut seat, from) {
            slots.push(slot)?;
        }
    }
    Ok(slots)
}

/// Takes what is left of the worker's own, and returns it.
fn left(alloc: Global, jobs: &Jobs, seat: &mut JobSeat, most: u32) -> Result<Vec<u32>, AllocError>
    requires { IsSeatOf jobs.now seat.old }
{
    let mut slots = Vec::new(alloc);
    for _ in 0..most {
        if let Some(slot) = jobs.take(seat) {
            slots.push(slot)?;
        }
    }
    Ok(slots)
}

#[test]
fn each_number_is_found_once_by_four_thieves(rt: HostRuntime) -> Result<(), Fail> {
    let alloc = rt.alloc();
    let (jobs, mut seats) = Jobs::new(alloc, 5)?;
    let mut four = last(&rt, &jobs, &mut seats);
    let most = MOST_KEPT as u32;
    same(&rt, put_many(&jobs, &mut four, most), most);
    let shared = &jobs;
    let found = thread::map_vec(
        &rt,
        seats,
        &move |seat: JobSeat|
            requires { IsSeatOf shared.now seat × (4 < workers_of shared.now) }
        { stolen(alloc, shared, seat, 4, 100) },
    )?;
    let mut slots = left(alloc, &jobs, &mut four, most)?;
    for some in found {
        slots.extend_from_slice(some?.as_slice())?;
    }
    slots.sort_unstable();
    let all: Vec<u32> = (0..most).collect(alloc)?;
    same(&rt, slots.as_slice(), all.as_slice());
    Ok(())
}
