//! The commands of a store's file, printed as lines of `replay`.

ghost use Rattle.std.specs.Prelude.{◌≡◌, ℕ, List, IfErr, IfOk, IfSome, OnOk};
ghost use Rattle.std.specs.Io.KnownBytes.{Appends};
ghost use Rattle.std.specs.List.{AllByRecursion};
ghost use Rattle.line_journal.specs.Lines.{lines_in, lines_of};
ghost use Rattle.registry_store.specs.Cause.{HasReadCause, bad_line};
ghost use Rattle.registry_store.specs.Store.{commands_of, lines_for};
ghost use Rattle.registry_store.specs.Stored.{MayBeStored};
ghost use Rattle.store_commands.specs.Cause.{HasExportCause, IsOfStore};
ghost use Rattle.store_commands.specs.Listing.{AreItsLines};

use crate::listing::{ListingFault, listing_of};
use command_io::{RunError, read_all, write_whole};
use line_journal::{ReadError, read_lines};
use registry_store::{LineFault, OpenFault, StoredCommand, parse};
use std::alloc::Global;
use std::io::{Read, Write};
use thiserror::Error;

/// Why the commands of a store were not printed.
#[derive(Clone, Copy, Debug, Error)]
pub enum ExportFault {
    /// The input was not read, or the output not written, or memory ran out.
    #[error("{0}")]
    Traffic(RunError),
    /// The bytes are not those of a store.
    #[error("{0}")]
    Store(OpenFault),
    /// The line with this number, from 1, is that of a command that no registry accepts.
    #[error("line {number}: no registry accepts the command")]
    NotAccepted { number: usize },
}

impl From<RunError> for ExportFault {
    ghost use Rattle.std.specs.Prelude.{◌≡◌};
    ghost use Rattle.store_commands.specs.declared.exporting.ExportFault.TheVariants.{Traffic};

    ghost from_gives = { λ error fault. fault ≡ Traffic error };

    fn from(error: RunError) -> ExportFault {
        ExportFault::Traffic(error)
    }
}

impl From<ReadError> for ExportFault {
    ghost use Rattle.store_commands.specs.Cause.{IsOfRead};

    ghost from_gives = { IsOfRead };

    fn from(error: ReadError) -> ExportFault {
        match error {
            ReadError::NoMemory => ExportFault::Traffic(RunError::NoMemory),
            ReadError::Damaged(damage) => ExportFault::Store(OpenFault::Damaged(damage)),
        }
    }
}

impl From<OpenFault> for ExportFault {
    ghost use Rattle.store_commands.specs.Cause.{IsOfOpen};

    ghost from_gives = { IsOfOpen };

    fn from(fault: OpenFault) -> ExportFault {
        match fault {
            OpenFault::NoMemory => ExportFault::Traffic(RunError::NoMemory),
            fault => ExportFault::Store(fault),
        }
    }
}

impl From<ListingFault> for ExportFault {
    ghost use Rattle.store_commands.specs.Cause.{IsOfListing};

    ghost from_gives = { IsOfListing };

    fn from(fault: ListingFault) -> ExportFault {
        match fault {
            ListingFault::NoMemory => ExportFault::Traffic(RunError::NoMemory),
            ListingFault::NotAccepted { number } => ExportFault::NotAccepted { number },
        }
    }
}

/// Returns the fault of a store whose line with this number, from 1, was not read.
fn bad_line(number: usize, fault: LineFault) -> OpenFault
    ensures { result ≡ bad_line number fault }
{
    match fault {
        LineFault::NoMemory => OpenFault::NoMemory,
        LineFault::BadCheck | LineFault::BadLine => OpenFault::BadLine { number, fault },
    }
}

/// Reads the lines of a store as commands, in their order.
fn read_commands(alloc: Global, lines: &[Vec<u8>]) -> Result<Vec<StoredCommand>, OpenFault>
    ensures value { IfOk result (λ commands. lines_of lines.now ≡ lines_for (commands_of commands.items)) }
    ensures may { IfOk result (λ commands. AllByRecursion MayBeStored (commands_of commands.items)) }
    ensures why { IfErr result (HasReadCause (lines_of lines.now)) }
{
    let mut commands = Vec::new(alloc);
    for (at, line) in lines.iter().enumerate() {
        match parse(alloc, line) {
            Ok(command) => commands.push(command)?,
            Err(fault) => return Err(bad_line(at + 1, fault)),
        }
    }
    Ok(commands)
}

/// Returns the lines of `replay` of the commands in the bytes of a store's file, in their order. What is after its
/// closed gate is not read.
fn exported(alloc: Global, file: &[u8]) -> Result<Vec<u8>, ExportFault>
    ensures lines { IfOk result (λ output. AreItsLines file.now output.items) }
    ensures why { IfErr result (HasExportCause file.now) }
{
    let found = read_lines(alloc, file)?;
    let commands = read_commands(alloc, &found.lines)?;
    Ok(listing_of(alloc, &commands)?)
}

/// Reads all bytes of a store's file from the reader, and writes the lines of `replay` of the commands in it, in their
/// order. Where the file is damaged, or a line of it is that of no command, nothing is written.
pub fn export<R: Read, W: Write>(
    alloc: Global,
    reader: &mut R,
    writer: &mut W,
) -> Result<(), ExportFault>
    ensures output { OnOk result (IfSome (R.remaining reader.old) (λ file. (output : List ℕ)
        × AreItsLines file output × Appends (W.contents writer.old) (W.contents writer.new) output)) }
    ensures why { IfErr result (λ fault. IfSome (R.remaining reader.old) (λ file. HasExportCause file fault)) }
    ensures unwritten { IfErr result (λ fault. IsOfStore fault → W.contents writer.new ≡ W.contents writer.old) }
{
    let file = read_all(alloc, reader)?;
    let output = exported(alloc, &file)?;
    Ok(write_whole(writer, &output)?)
}
