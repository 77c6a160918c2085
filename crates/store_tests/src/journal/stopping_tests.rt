//! A journal over a real file whose disk stops at each call in turn.

use crate::disks::{contents, is_begun, is_removed};
use crate::journal::journals::{answer_to, is_made, lines_at, opened};
use crate::same::same;
use journal_file::{Unknown, open};
use line_journal::Journal;
use sqlite_disk::{Disk, Fuse};
use std::alloc::{AllocError, Global};
use std::fs;

/// What is tried with a journal whose disk stops.
#[derive(Clone, Copy)]
enum Attempt {
    /// To add the line `new`.
    Append,
    /// To take that line back once it is added.
    TakeBack,
    /// To open a gate that is half open.
    Repair,
}

impl Attempt {
    /// Returns how many calls of the disk are made before.
    fn calls_before(self) -> u64 {
        match self {
            // `open` and `append` make four calls each.
            Attempt::Append => 4,
            Attempt::TakeBack => 8,
            Attempt::Repair => 0,
        }
    }

    /// Returns the folder of its test.
    fn folder(self) -> &'static str {
        match self {
            Attempt::Append => "line_journal_append",
            Attempt::TakeBack => "line_journal_take_back",
            Attempt::Repair => "line_journal_repair",
        }
    }

    /// Returns the path of its journal.
    fn path(self) -> &'static str {
        match self {
            Attempt::Append => "line_journal_append/lines",
            Attempt::TakeBack => "line_journal_take_back/lines",
            Attempt::Repair => "line_journal_repair/lines",
        }
    }
}

/// Adds `new` to a journal and takes it back. Returns what comes of it.
fn take_back_new<D: Disk>(alloc: Global, journal: &mut Journal<D>) -> &'static str {
    if answer_to(alloc, journal, b"new") != "added" {
        return "not added";
    }
    journal.take_back();
    if journal.takes_lines() {
        "taken back"
    } else {
        "closed"
    }
}

/// Tries it with the journal on a disk. Returns what comes of it.
fn answer_on<D: Disk + Drop>(alloc: Global, disk: D, attempt: Attempt) -> &'static str {
    let Some((mut journal, _lines)) = opened(alloc, disk) else {
        return "not opened";
    };
    match attempt {
        Attempt::Append => answer_to(alloc, &mut journal, b"new"),
        Attempt::TakeBack => take_back_new(alloc, &mut journal),
        Attempt::Repair => "opened",
    }
}

/// Tries it with the journal at a path, whose disk stops after this many of the calls that it makes. Returns what comes
/// of it.
fn answer_at(rt: &HostRuntime, path: &str, attempt: Attempt, calls: u64) -> &'static str {
    let calls = calls.saturating_add(attempt.calls_before());
    match open(rt, path, Unknown) {
        Ok(file) => answer_on(rt.alloc(), Fuse::new(file, calls), attempt),
        Err(_) => "no file",
    }
}

/// Makes the journal that an attempt is made with, in a new folder. Returns whether it is made.
fn is_ready(rt: &HostRuntime, attempt: Attempt) -> bool {
    if !is_begun(rt, attempt.folder()) || !is_made(rt, attempt.path()) {
        return false;
    }
    match attempt {
        Attempt::Repair => fs::write(rt, attempt.path(), b"+-old\n--".as_slice()).is_ok(),
        _ => true,
    }
}

/// Appends a line: what comes of an attempt whose disk stops after this many calls, and which lines there are then.
fn push_row(
    rt: &HostRuntime,
    text: &mut String,
    attempt: Attempt,
    calls: u64,
) -> Result<(), AllocError> {
    let answer = if is_ready(rt, attempt) {
        answer_at(rt, attempt.path(), attempt, calls)
    } else {
        "no journal"
    };
    let lines = lines_at(rt, attempt.path())?;
    let end = if is_removed(rt, attempt.folder()) {
        ""
    } else {
        " and its folder stays"
    };
    write!(text, "{calls}: {answer}, {lines}{end}\n")
}

/// Returns a line for each number of calls after which an attempt may stop.
fn rows_of(rt: &HostRuntime, attempt: Attempt) -> Result<String, AllocError> {
    let mut text = String::new(rt.alloc());
    for calls in 0..=4 {
        push_row(rt, &mut text, attempt, calls)?;
    }
    Ok(text)
}

/// What comes of a line that is added. The gate is open in the file once it was written, which is the third call.
const APPENDED: &str = "\
0: failed, closed, old|
1: failed, closed, old|
2: failed, closed, old|
3: failed, closed, old|new|
4: added, old|new|
";

#[test]
fn an_append_that_stops_at_each_call(rt: HostRuntime) -> Result<(), AllocError> {
    let rows = rows_of(&rt, Attempt::Append)?;
    same(&rt, rows.as_str(), APPENDED);
    Ok(())
}

/// What comes of a line that is taken back.
const TAKEN_BACK: &str = "\
0: closed, old|new|
1: closed, old|
2: closed, old|
3: closed, old|
4: taken back, old|
";

#[test]
fn a_line_taken_back_that_stops_at_each_call(rt: HostRuntime) -> Result<(), AllocError> {
    let rows = rows_of(&rt, Attempt::TakeBack)?;
    same(&rt, rows.as_str(), TAKEN_BACK);
    Ok(())
}

/// What comes of a journal whose last gate is half open.
const REPAIRED: &str = "\
0: not opened, old|
1: not opened, old|
2: not opened, old|
3: not opened, old|
4: opened, old|
";

#[test]
fn a_half_open_gate_whose_repair_stops_at_each_call(rt: HostRuntime) -> Result<(), AllocError> {
    let rows = rows_of(&rt, Attempt::Repair)?;
    same(&rt, rows.as_str(), REPAIRED);
    Ok(())
}

/// Takes a line back from the journal on a disk to which none was added since it was opened. Returns what comes of it.
fn take_back_at_once<D: Disk + Drop>(alloc: Global, disk: D) -> &'static str {
    let Some((mut journal, lines)) = opened(alloc, disk) else {
        return "not opened";
    };
    journal.take_back();
    match (lines.len(), journal.takes_lines()) {
        (2, false) => "closed, two lines",
        _ => "another answer",
    }
}

/// Returns what comes of lines that are added and taken back over restarts, each as a line, and the bytes of the file.
fn kept_over_restarts(rt: &HostRuntime) -> Result<String, AllocError> {
    const FOLDER: &str = "line_journal_kept";
    const PATH: &str = "line_journal_kept/lines";
    let is_begun = is_begun(rt, FOLDER) && is_made(rt, PATH);
    let added = answer_at(rt, PATH, Attempt::Append, 4);
    let lines = lines_at(rt, PATH)?;
    let taken_back = answer_at(rt, PATH, Attempt::TakeBack, 4);
    // After `open` no line may be taken back.
    let at_once = match open(rt, PATH, Unknown) {
        Ok(file) => take_back_at_once(rt.alloc(), file),
        Err(_) => "no file",
    };
    let bytes = contents(rt, PATH)?;
    let is_removed = is_removed(rt, FOLDER);
    format!(in rt.alloc();
        "begun {is_begun}\n{added}, {lines}\n{taken_back}\n{at_once}\n{bytes}\nremoved {is_removed}"
    )
}

/// What `kept_over_restarts` returns.
const KEPT: &str = "\
begun true
added, old|new|
taken back
closed, two lines
++old
++new
--
removed true";

#[test]
fn lines_are_kept_and_taken_back_over_restarts(rt: HostRuntime) -> Result<(), AllocError> {
    let kept = kept_over_restarts(&rt)?;
    same(&rt, kept.as_str(), KEPT);
    Ok(())
}

/// Writes a file over a new journal. Returns the lines of the journal, and then the bytes of the file.
fn opened_as(rt: &HostRuntime, file: &str) -> Result<String, AllocError> {
    const FOLDER: &str = "line_journal_half_open";
    const PATH: &str = "line_journal_half_open/lines";
    let is_written = is_begun(rt, FOLDER)
        && is_made(rt, PATH)
        && fs::write(rt, PATH, file.as_bytes()).is_ok();
    let lines = lines_at(rt, PATH)?;
    let bytes = contents(rt, PATH)?;
    let is_removed = is_removed(rt, FOLDER);
    format!(in rt.alloc(); "{is_written} {lines} {bytes} {is_removed}")
}

/// What `opened_as` returns of both files.
const OPENED: &str = "true old|new| ++old\n++new\n-- true";

#[test]
fn a_half_open_gate_is_opened(rt: HostRuntime) -> Result<(), AllocError> {
    let first = opened_as(&rt, "++old\n+-new\n--")?;
    same(&rt, first.as_str(), OPENED);
    let second = opened_as(&rt, "++old\n-+new\n--")?;
    same(&rt, second.as_str(), OPENED);
    Ok(())
}
