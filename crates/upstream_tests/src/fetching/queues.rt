//! The rules of the queue. A script has steps: `ask` with an id, the milliseconds after which it is asked for, and
//! those until which somebody waits, if that is known; `next`; `tell` with an id, the milliseconds after which its
//! fetch has ended, and a fault if there is one; and `end`. What is answered comes after the arrow.

use crate::listed_upstream::ListedUpstream;
use crate::texts::{number, same};
use gateway_requests::{Fault, UpstreamFault};
use std::alloc::{AllocError, Global};
use std::sync::Wait;
use std::test::Fail;
use std::time::{Clock, Duration, Instant};
use upstream_fetching::{Asked, FetchQueue, MOST_ASKED, MOST_FAILURES};

/// Returns the moment that is a number of milliseconds after another. None where the word is no number.
fn moment_after(begin: Instant, word: Option<&str>) -> Option<Instant> {
    let milliseconds = word?.parse::<u64>().ok()?;
    begin.checked_add(Duration::from_millis(milliseconds))
}

/// Ends the asking for an id, with a fault by its name; any other word is none.
fn tell<R: Wait>(rt: &R, queue: &FetchQueue<ListedUpstream>, id: u32, fault: &str, now: Instant) {
    match fault {
        "Full" => queue.tell(rt, id, Some(Fault::Full), now),
        "NoMemory" => queue.tell(rt, id, Some(Fault::NoMemory), now),
        "Late" => queue.tell(rt, id, Some(Fault::Upstream(UpstreamFault::Late)), now),
        _ => queue.tell(rt, id, None, now),
    }
}

/// Takes a step, and appends what is answered.
fn push_answer<R: Wait + Clock>(
    rt: &R,
    queue: &FetchQueue<ListedUpstream>,
    begin: Instant,
    text: &mut String,
    step: &str,
) -> Result<(), AllocError> {
    let mut words = step.split(' ');
    let verb = words.next().unwrap_or("");
    let id = number(words.next().unwrap_or(""));
    let now = moment_after(begin, words.next()).unwrap_or(begin);
    let last = words.next();
    match verb {
        "ask" => {
            let asked = queue.ask(rt, id, now, moment_after(begin, last));
            write!(text, " -> {asked:?}")
        }
        "next" => {
            let next = queue.next(rt);
            write!(text, " -> {next:?}")
        }
        "tell" => {
            tell(rt, queue, id, last.unwrap_or(""), now);
            Ok(())
        }
        _ => {
            queue.end(rt);
            Ok(())
        }
    }
}

/// Returns the steps with what a queue answers to each in place of what is wanted.
fn answered_by<R: Wait + Clock>(
    rt: &R,
    alloc: Global,
    queue: &FetchQueue<ListedUpstream>,
    begin: Instant,
    steps: &str,
) -> Result<String, AllocError> {
    let mut text = String::new(alloc);
    for row in steps.lines() {
        let (step, _wanted) = row.split_once(" -> ").unwrap_or((row, ""));
        text.push_str(step)?;
        push_answer(rt, queue, begin, &mut text, step)?;
        text.push_str("\n")?;
    }
    Ok(text)
}

/// Returns the steps with what a queue of no ids answers to each in place of what is wanted, from now on.
fn answered<R: Wait + Clock>(rt: &R, alloc: Global, steps: &str) -> Result<String, Fail> {
    let begin = Instant::now(rt)?;
    let queue = FetchQueue::new(alloc);
    Ok(answered_by(rt, alloc, &queue, begin, steps)?)
}

/// An id that waits, one that is under way, another that has ended, and the first asked for anew once it has ended.
const ONE_AT_A_TIME: &str = "\
ask 7 0 -> Waits
ask 7 0 -> Waits
next -> Some(7)
ask 7 0 -> Waits
ask 8 0 -> Waits
next -> Some(8)
tell 7 0
ask 8 0 -> Waits
ask 7 0 -> Waits
next -> Some(7)
";

#[test]
fn one_fetch_an_id_at_a_time(rt: HostRuntime) -> Result<(), Fail> {
    same(
        &rt,
        &answered(&rt, rt.alloc(), ONE_AT_A_TIME)?,
        ONE_AT_A_TIME,
    );
    Ok(())
}

/// Two failures of one moment, which are answered until a second after it; the first is asked for anew and fails again,
/// and then its schema is held.
const FAILURES: &str = "\
ask 7 0 -> Waits
next -> Some(7)
tell 7 5000 Full
ask 8 0 -> Waits
next -> Some(8)
tell 8 5000 Late
ask 7 4000 -> Failed(Full)
ask 8 4000 -> Failed(Upstream(Late))
ask 7 5000 -> Failed(Full)
ask 8 5000 -> Failed(Upstream(Late))
ask 7 5999 -> Failed(Full)
ask 8 5999 -> Failed(Upstream(Late))
ask 7 6000 -> Waits
next -> Some(7)
tell 7 6500 NoMemory
ask 7 7400 -> Failed(NoMemory)
ask 7 7500 -> Waits
next -> Some(7)
tell 7 7500
ask 7 6500 -> Waits
";

#[test]
fn a_failure_is_answered_for_a_second(rt: HostRuntime) -> Result<(), Fail> {
    same(&rt, &answered(&rt, rt.alloc(), FAILURES)?, FAILURES);
    Ok(())
}

/// Two ids of which the second comes after the end.
const AFTER_THE_END: &str = "\
ask 7 0 -> Waits
end
next -> None
ask 8 0 -> Busy
";

#[test]
fn nothing_is_asked_for_after_the_end(rt: HostRuntime) -> Result<(), Fail> {
    same(
        &rt,
        &answered(&rt, rt.alloc(), AFTER_THE_END)?,
        AFTER_THE_END,
    );
    Ok(())
}

/// An id for which nobody waits any more, which is let go; one for which another waits longer, and one for which
/// another waits shorter; and the first asked for anew.
const LET_GO: &str = "\
ask 7 0 0 -> Waits
ask 8 0 0 -> Waits
ask 8 0 3600000 -> Waits
ask 9 0 3600000 -> Waits
ask 9 0 0 -> Waits
next -> Some(8)
next -> Some(9)
ask 7 0 3600000 -> Waits
next -> Some(7)
";

#[test]
fn ids_for_which_nobody_waits_are_let_go(rt: HostRuntime) -> Result<(), Fail> {
    same(&rt, &answered(&rt, rt.alloc(), LET_GO)?, LET_GO);
    Ok(())
}

/// Asks for the ids below a number, which are as many as may be, and then takes them. Returns whether each waits and no
/// other does, and they are taken in their order.
fn asked_and_taken<R: Wait + Clock>(
    rt: &R,
    queue: &FetchQueue<ListedUpstream>,
    count: u32,
    now: Instant,
) -> bool {
    let mut right = true;
    for id in 0..count {
        right &= queue.ask(rt, id, now, None) == Asked::Waits;
    }
    right &= queue.ask(rt, count, now, None) == Asked::Busy;
    right &= queue.ask(rt, 0, now, None) == Asked::Waits;
    for id in 0..count {
        right = right && queue.next(rt) == Some(id);
    }
    right
}

/// Returns whether no more ids are asked for than may be: while they wait, while they are under way, and once one of
/// them has ended.
fn no_more_than_may_be<R: Wait + Clock>(rt: &R, alloc: Global, now: Instant) -> bool {
    let queue = FetchQueue::new(alloc);
    let most = MOST_ASKED as u32;
    let mut right = asked_and_taken(rt, &queue, most, now);
    right &= queue.ask(rt, most, now, None) == Asked::Busy;
    queue.tell(rt, 5, None, now);
    right &= queue.ask(rt, most, now, None) == Asked::Waits;
    right &= queue.ask(rt, 5, now, None) == Asked::Busy;
    right && queue.next(rt) == Some(most)
}

#[test]
fn as_many_ids_as_may_be_are_asked_for(rt: HostRuntime) -> Result<(), Fail> {
    assert!(rt; no_more_than_may_be(&rt, rt.alloc(), Instant::now(&rt)?));
    Ok(())
}

/// Asks for an id, takes it and reports a failure of it. Returns whether it was taken.
fn failed<R: Wait + Clock>(
    rt: &R,
    queue: &FetchQueue<ListedUpstream>,
    id: u32,
    now: Instant,
) -> bool {
    let is_taken = queue.ask(rt, id, now, None) == Asked::Waits && queue.next(rt) == Some(id);
    queue.tell(rt, id, Some(Fault::Full), now);
    is_taken
}

/// Returns whether of 1,000 failures the last ones are remembered, as many as may be.
fn the_last_are_remembered<R: Wait + Clock>(rt: &R, alloc: Global, now: Instant) -> bool {
    let queue = FetchQueue::new(alloc);
    let mut right = true;
    for id in 0..1_000 {
        right &= failed(rt, &queue, id, now);
    }
    let first = 1_000 - MOST_FAILURES as u32;
    for id in 0..1_000 {
        let is_remembered = queue.ask(rt, id, now, None) == Asked::Failed(Fault::Full);
        right &= is_remembered == (id >= first);
    }
    right
}

#[test]
fn the_last_failures_are_remembered(rt: HostRuntime) -> Result<(), Fail> {
    assert!(rt; the_last_are_remembered(&rt, rt.alloc(), Instant::now(&rt)?));
    Ok(())
}
