//! The manners in which a request is answered, and what each has to make of it.

use crate::calls::{AT_ONCE, Behaviour, Trouble};
use crate::printing::{push_answer, push_difference};
use crate::row::Row;
use crate::service::{Served, Service};
use gateway::ServeError;
use gateway_server::RunError;
use std::alloc::{AllocError, Global};
use std::sync::Wait;

/// How many calls a device is let fail at, one after another.
const MOST_CALLS: u32 = 40;

/// In how many pieces devices that fail move their bytes, about.
const PIECES: usize = 16;

/// A device that fails.
#[derive(Clone, Copy, Debug, PartialEq, Eq)]
enum Failing {
    Reader,
    Writer,
    /// A writer that takes no byte.
    FullWriter,
}

/// A manner in which a request is answered.
#[derive(Drop)]
struct Manner {
    name: String,
    reading: Behaviour,
    writing: Behaviour,
}

/// Returns whether the bytes of an answer begin with its status line.
fn has_status_line(alloc: Global, served: &Served) -> Result<bool, AllocError> {
    match served.status {
        Ok(status) => {
            let start = format!(in alloc; "HTTP/1.1 {status} ")?;
            Ok(served.bytes.starts_with(start.as_bytes()))
        }
        Err(_) => Ok(served.bytes.is_empty()),
    }
}

/// Returns whether a request was answered as it should be, by how it is answered at once.
fn is_right(served: &Served, at_once: &Served) -> bool {
    let sent = served.bytes.len();
    if served.reader_failed {
        return sent == 0 && served.status == Err(ServeError::ReadFault);
    }
    if served.writer_failed {
        return served.status == Err(ServeError::WriteFault { sent })
            && at_once.bytes.starts_with(&served.bytes);
    }
    served.status == at_once.status && served.bytes.as_slice() == at_once.bytes.as_slice()
}

/// A request, and how it is answered at once.
#[derive(Clone, Copy)]
struct Expected<'a> {
    row: &'a Row,
    at_once: &'a Served,
}

/// Serves a request in a manner, as a whole and in parts, and appends a line where the answer differs. Returns
/// whether a device of the first failed.
fn try_manner<R: Wait>(
    rt: &R,
    alloc: Global,
    output: &mut Vec<u8>,
    service: &mut Service<'_, '_>,
    expected: Expected<'_>,
    manner: &Manner,
) -> Result<bool, RunError> {
    let Expected { row, at_once } = expected;
    let served = service.serve(rt, alloc, row, manner.reading, manner.writing);
    if !is_right(&served, at_once) {
        push_difference(alloc, output, &manner.name, &served)?;
    }
    let parts = service.serve_in_parts(rt, alloc, row, manner.reading, manner.writing);
    if !is_right(&parts, at_once) {
        let name = format!(in alloc; "in parts: {}", manner.name)?;
        push_difference(alloc, output, &name, &parts)?;
    }
    Ok(served.reader_failed || served.writer_failed)
}

/// Returns the manners with devices in which nothing fails, or everything.
fn steady_manners(alloc: Global) -> Result<[Manner; 4], AllocError> {
    let of = |piece: usize, trouble: Trouble| Behaviour { piece, trouble };
    Ok([
        Manner {
            name: String::from_str(alloc, "a byte at a time")?,
            reading: of(1, Trouble::Nothing),
            writing: of(1, Trouble::Nothing),
        },
        Manner {
            name: String::from_str(alloc, "interrupted before each call")?,
            reading: of(7, Trouble::Interruptions),
            writing: of(7, Trouble::Interruptions),
        },
        Manner {
            name: String::from_str(alloc, "a reader interrupted for good")?,
            reading: of(7, Trouble::InterruptedForGood),
            writing: AT_ONCE,
        },
        Manner {
            name: String::from_str(alloc, "a writer interrupted for good")?,
            reading: AT_ONCE,
            writing: of(7, Trouble::InterruptedForGood),
        },
    ])
}

/// Returns the manner in which a device fails at its call with this number.
fn failing_manner(
    alloc: Global,
    device: Failing,
    call: u32,
    request: usize,
    answer: usize,
) -> Result<Manner, AllocError> {
    let reading = Behaviour {
        piece: (request / PIECES).saturating_add(1),
        trouble: Trouble::FailsAt(call),
    };
    let piece = (answer / PIECES).saturating_add(1);
    let (name, reading, writing) = match device {
        Failing::Reader => ("a reader that fails", reading, AT_ONCE),
        Failing::Writer => {
            let trouble = Trouble::FailsAt(call);
            ("a writer that fails", AT_ONCE, Behaviour { piece, trouble })
        }
        Failing::FullWriter => {
            let trouble = Trouble::MovesNothingAt(call);
            ("a full writer", AT_ONCE, Behaviour { piece, trouble })
        }
    };
    Ok(Manner {
        name: format!(in alloc; "{name} at call {call}")?,
        reading,
        writing,
    })
}

/// Makes a device fail at its first call, at its second, and so on, until it makes no call with that number.
fn try_failing<R: Wait>(
    rt: &R,
    alloc: Global,
    output: &mut Vec<u8>,
    service: &mut Service<'_, '_>,
    expected: Expected<'_>,
    device: Failing,
) -> Result<(), RunError> {
    for call in 1..=MOST_CALLS {
        let (request, answer) = (expected.row.request.len(), expected.at_once.bytes.len());
        let manner = failing_manner(alloc, device, call, request, answer)?;
        if !try_manner(rt, alloc, output, service, expected, &manner)? {
            return Ok(());
        }
    }
    Ok(())
}

/// Serves a request at once and appends the line of the answer; then in each other manner, and appends a line for
/// each that differs. Returns the answer.
pub(crate) fn push_row<R: Wait>(
    rt: &R,
    alloc: Global,
    output: &mut Vec<u8>,
    service: &mut Service<'_, '_>,
    row: &Row,
) -> Result<Vec<u8>, RunError> {
    let at_once = service.serve(rt, alloc, row, AT_ONCE, AT_ONCE);
    push_answer(alloc, output, &at_once.bytes, row.shows_whole)?;
    if !has_status_line(alloc, &at_once)? {
        push_difference(alloc, output, "at once", &at_once)?;
    }
    if row.is_once {
        return Ok(at_once.bytes);
    }
    let blocking = Behaviour {
        piece: 1,
        trouble: Trouble::Blocks,
    };
    let parts = service.serve_in_parts(rt, alloc, row, blocking, blocking);
    if !is_right(&parts, &at_once) {
        push_difference(
            alloc,
            output,
            "in parts: a byte at each second call",
            &parts,
        )?;
    }
    let expected = Expected {
        row,
        at_once: &at_once,
    };
    for manner in &steady_manners(alloc)? {
        try_manner(rt, alloc, output, service, expected, manner)?;
    }
    for device in [Failing::Reader, Failing::Writer, Failing::FullWriter] {
        try_failing(rt, alloc, output, service, expected, device)?;
    }
    Ok(at_once.bytes)
}

/// Serves a reader that ends at once, and appends a line where that is not reported or a byte is written.
pub(crate) fn push_closed<R: Wait>(
    rt: &R,
    alloc: Global,
    output: &mut Vec<u8>,
    service: &mut Service<'_, '_>,
) -> Result<(), RunError> {
    let row = Row {
        request: Vec::new(alloc),
        is_open: false,
        shows_whole: true,
        is_once: true,
    };
    let served = service.serve(rt, alloc, &row, AT_ONCE, AT_ONCE);
    if served.status != Err(ServeError::Closed) || !served.bytes.is_empty() {
        push_difference(alloc, output, "a reader that ends at once", &served)?;
    }
    Ok(())
}
