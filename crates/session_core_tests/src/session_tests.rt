//! A session by itself: why its slices stop, what its calls refuse, its room for another program, what it carries.

use crate::again::{published_of, row_for};
use crate::same::same;
use machine::PlannedProgram;
use session_core::{BreakRefusal, ClearRefusal, PieceRefusal, Session, Slice, Stopped};
use std::alloc::Global;
use std::process::Abort;
use std::test::Fail;

/// Returns a slice of this number of rows, and why no more.
fn slice(rows: u64, stopped: Stopped) -> Slice {
    Slice { rows, stopped }
}

/// What a new session of a program of two instructions does.
#[derive(Clone, Copy)]
struct Course {
    /// Its slices, as bytes and breakpoints let it take rows.
    slices: [Slice; 6],
    /// Whether it takes a piece, and a breakpoint is set and cleared.
    is_as_asked: bool,
    /// What it answers to a piece after its end.
    late: Result<(), PieceRefusal>,
}

/// Runs a new session of a program of two instructions.
fn course_of(session: &mut Session) -> Course {
    let empty = session.slice(9);
    let is_taken = session.piece(&[2]).is_ok();
    let is_set = session.set_break(0).is_ok();
    let broken = session.slice(9);
    let is_cleared = session.clear_break(0).is_ok();
    let spent = session.slice(1);
    let waiting = session.slice(9);
    session.finish();
    let last = session.slice(9);
    let ended = session.slice(9);
    Course {
        slices: [empty, broken, spent, waiting, last, ended],
        is_as_asked: is_taken && is_set && is_cleared,
        late: session.piece(&[0]),
    }
}

/// The slices of a course.
const SLICES: [Slice; 6] = [
    Slice {
        rows: 0,
        stopped: Stopped::Waits,
    },
    Slice {
        rows: 0,
        stopped: Stopped::Broke,
    },
    Slice {
        rows: 1,
        stopped: Stopped::Spent,
    },
    Slice {
        rows: 0,
        stopped: Stopped::Waits,
    },
    Slice {
        rows: 1,
        stopped: Stopped::Ended,
    },
    Slice {
        rows: 0,
        stopped: Stopped::Ended,
    },
];

/// Asserts that a course is as it has to be.
fn assert_course(rt: &impl Abort, course: &Course) {
    same(rt, course.slices.as_slice(), SLICES.as_slice());
    same(rt, course.is_as_asked, true);
    same(rt, course.late, Err(PieceRefusal::Ended));
}

/// What a session does with a program, and then with another one.
#[derive(Clone, Copy)]
struct Courses {
    first: Course,
    /// Whether it has no bytes and is open once it has the other program.
    is_new: bool,
    second: Course,
    /// What is answered to a breakpoint past the other program.
    set: Result<(), BreakRefusal>,
    clear: Result<(), ClearRefusal>,
}

/// Runs a new session, and once more with another program.
fn courses_of<'p>(session: &mut Session<'p>, other: &'p PlannedProgram) -> Courses {
    let first = course_of(session);
    session.reset(other);
    let is_new = session.bytes().is_empty() & !session.is_closed() & !session.has_ended();
    let second = course_of(session);
    let set = session.set_break(2);
    let clear = session.clear_break(2);
    Courses {
        first,
        is_new,
        second,
        set,
        clear,
    }
}

/// Returns what a session does with the program of ints, and then with that from ints to longs.
fn both_courses(alloc: Global) -> Result<Courses, Fail> {
    let row = row_for(alloc, 2)?;
    let ints = published_of(alloc, &row, "\"int\"", "\"int\"")?;
    let longs = published_of(alloc, &row, "\"int\"", "\"long\"")?;
    let mut session = Session::begin(alloc, ints);
    Ok(courses_of(&mut session, longs))
}

#[test]
fn a_slice_tells_why_it_stopped(rt: HostRuntime) -> Result<(), Fail> {
    let courses = both_courses(rt.alloc())?;
    assert_course(&rt, &courses.first);
    assert_course(&rt, &courses.second);
    same(&rt, courses.is_new, true);
    same(&rt, courses.set, Err(BreakRefusal::BadAddress));
    same(&rt, courses.clear, Err(ClearRefusal::BadAddress));
    Ok(())
}

/// Refuses memory to a new session, and resets it. Returns whether it has ended until then.
fn ends_until_it_is_reset<'p>(session: &mut Session<'p>, program: &'p PlannedProgram) -> bool {
    session.refuse();
    let mut right = session.slice(9) == slice(0, Stopped::Ended);
    right &= session.no_memory();
    right &= !session.machine().has_ended();
    session.reset(program);
    right & (session.slice(9) == slice(0, Stopped::Waits))
}

/// Returns whether a session of the program of ints has ended until it is reset, where memory is refused to it.
fn refused_ends_until_it_is_reset(alloc: Global) -> Result<bool, Fail> {
    let row = row_for(alloc, 1)?;
    let program = published_of(alloc, &row, "\"int\"", "\"int\"")?;
    let mut session = Session::begin(alloc, program);
    Ok(ends_until_it_is_reset(&mut session, program))
}

#[test]
fn refused_memory_ends_a_session_until_it_is_reset(rt: HostRuntime) -> Result<(), Fail> {
    assert!(rt; refused_ends_until_it_is_reset(rt.alloc())?);
    Ok(())
}

/// Gives a new session a text whose last character is cut. Returns whether it carries the beginning of that until the
/// rest comes.
fn is_carried(session: &mut Session) -> bool {
    let mut right = session.piece(&[0x84, 0x01]).is_ok();
    right &= session.piece(&[b'a'; 63]).is_ok();
    right &= session.piece(&[0xe2]).is_ok();
    right &= session.slice(9) == slice(2, Stopped::Waits);
    right &= session.carry() == [0xe2].as_slice();
    right &= session.piece(&[0x82, 0xac]).is_ok();
    session.finish();
    right &= session.slice(9) == slice(2, Stopped::Ended);
    right & session.carry().is_empty()
}

/// Returns whether a session of the program of strings carries a character that is cut.
fn strings_are_carried(alloc: Global) -> Result<bool, Fail> {
    let row = row_for(alloc, 1)?;
    let program = published_of(alloc, &row, "\"string\"", "\"string\"")?;
    let mut session = Session::begin(alloc, program);
    Ok(is_carried(&mut session))
}

#[test]
fn a_session_carries_a_character_that_is_cut(rt: HostRuntime) -> Result<(), Fail> {
    assert!(rt; strings_are_carried(rt.alloc())?);
    Ok(())
}
