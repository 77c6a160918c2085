//! A new store of lines of `replay`.

use crate::importing_lines::{LineTrouble, UntakenLine, import_lines};
use crate::opening::made;
use crate::refusal::{StoreRefusal, make_refusal};
use command_io::{RunError, read_all, write_whole};
use schema_registry::Refusal;
use std::alloc::{AllocError, Global};
use std::io::{Read, Write};
use thiserror::Error;

/// Why a store was not made of lines.
#[derive(Clone, Copy, Debug, Error)]
pub enum ImportFault<'p> {
    /// The input was not read, or the output not written, or memory ran out.
    #[error("{0}")]
    Traffic(RunError),
    /// The file was not made.
    #[error("{0}")]
    Store(StoreRefusal<'p>),
    /// A line was not taken, and the file has what those before it say.
    #[error("{line}; the store {path} is left with the lines before it")]
    Line { path: &'p str, line: UntakenLine },
}

impl<'p> From<AllocError> for ImportFault<'p> {
    fn from(_error: AllocError) -> ImportFault<'p> {
        ImportFault::Traffic(RunError::NoMemory)
    }
}

impl<'p> From<RunError> for ImportFault<'p> {
    fn from(error: RunError) -> ImportFault<'p> {
        ImportFault::Traffic(error)
    }
}

impl<'p> From<StoreRefusal<'p>> for ImportFault<'p> {
    fn from(refusal: StoreRefusal<'p>) -> ImportFault<'p> {
        match refusal {
            StoreRefusal::NoMemory => ImportFault::Traffic(RunError::NoMemory),
            refusal => ImportFault::Store(refusal),
        }
    }
}

/// Returns why a store is left unfinished of which this line was not taken.
fn line_fault(path: &str, line: UntakenLine) -> ImportFault<'_> {
    if line.trouble == LineTrouble::Refused(Refusal::NoMemory) {
        return ImportFault::Traffic(RunError::NoMemory);
    }
    ImportFault::Line { path, line }
}

/// Makes a store in a new file at the path, of the lines of `replay` that the reader has, and writes `imported N`,
/// with the number of commands that they say.
///
/// A file that is there is left as it is. The input is read to its end before the file is made. Where a line is not
/// taken, the file is left with the commands of the lines before it.
pub fn import<'p, R: Read, W: Write>(
    rt: &HostRuntime,
    alloc: Global,
    path: &'p str,
    reader: &mut R,
    writer: &mut W,
) -> Result<(), ImportFault<'p>> {
    let input = read_all(alloc, reader)?;
    let mut kept = match made(rt, alloc, path) {
        Ok(kept) => kept,
        Err(error) => return Err(make_refusal(path, error).into()),
    };
    match import_lines(alloc, &mut kept, &input) {
        Ok(count) => {
            let line = format!(in alloc; "imported {count}\n")?;
            Ok(write_whole(writer, line.as_bytes())?)
        }
        Err(line) => Err(line_fault(path, line)),
    }
}
