//! The words of the command line, and what is printed of them.

use clap::error::ErrorKind;
use command_line::{Task, cli, task_of};
use commands::Status;
use std::io;
use std::rt::Env;

/// Prints what is wrong with the words, or the help that they ask for.
fn explain(rt: &(impl Print + Eprint), error: &clap::Error) -> Status {
    if error.kind() == ErrorKind::OutOfMemory {
        return Status::NoMemory;
    }
    let told = error.print(rt);
    if error.exit_code() != 0 {
        return Status::BadWords;
    }
    match told {
        Ok(()) => Status::Answered,
        Err(_) => Status::BadTraffic,
    }
}

/// Prints why the words cannot be read.
pub(crate) fn refuse(rt: &impl Eprint, error: &io::Error) -> Status {
    if error.kind() == io::ErrorKind::InvalidData {
        let _ = eprintln!(rt; "error: a word of the command line is no UTF-8");
        return Status::BadWords;
    }
    Status::NoMemory
}

/// Prints that the address of a service is none.
fn refuse_address(rt: &impl Eprint) -> Status {
    let _ = eprintln!(rt; "error: '--address <IP>' takes an address such as 127.0.0.1 or ::1");
    Status::BadWords
}

/// Returns what the words ask for; or the status, where it was printed what is wrong with them or the help that they
/// ask for.
pub(crate) fn task_in<'w>(
    rt: &(impl Print + Eprint + AllocGlobal),
    words: &'w [String],
) -> Result<Task<'w>, Status> {
    let Ok(line) = cli(rt.alloc()) else {
        return Err(Status::NoMemory);
    };
    match line.try_get_matches_from(words) {
        Ok(matches) => task_of(&matches).ok_or_else(|| refuse_address(rt)),
        Err(error) => Err(explain(rt, &error)),
    }
}

/// Returns the words of the command line.
pub(crate) fn words_of(rt: &(impl Env + AllocGlobal)) -> io::Result<Vec<String>> {
    let words = std::env::args(rt)?;
    Ok(words.collect(rt.alloc())?)
}
