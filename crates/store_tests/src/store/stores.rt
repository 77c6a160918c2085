//! Stores over any disk, for tests.

use journal_file::{JournalFile, Unknown, make, open};
use registry_store::{CommandStore, StoredCommand};
use sqlite_disk::Disk;
use std::alloc::{AllocError, Global};

/// Makes a store on a disk, of one registration. None where it is not made.
fn made_on<D: Disk + Drop>(alloc: Global, disk: D) -> Option<CommandStore<D>> {
    if !disk.may_be_used() {
        return None;
    }
    let mut store = CommandStore::create(alloc, disk).ok()?;
    match store.keep_registration(1, "orders", "\"int\"") {
        Ok(()) => Some(store),
        Err(_) => None,
    }
}

/// Makes a store at a path, of one registration. None where it is not made.
pub(crate) fn made_at(rt: &HostRuntime, path: &str) -> Option<CommandStore<JournalFile>> {
    match make(rt, path, Unknown) {
        Ok(file) => made_on(rt.alloc(), file),
        Err(_) => None,
    }
}

/// Appends a command and a `;` to a text.
fn push_command(text: &mut String, command: &StoredCommand) -> Result<(), AllocError> {
    match command {
        StoredCommand::Registration {
            id,
            subject,
            text: schema,
        } => write!(text, "{id} {subject} {schema};"),
        StoredCommand::Level { subject, level } => match subject {
            Some(subject) => write!(text, "{subject} {level};"),
            None => write!(text, "global {level};"),
        },
    }
}

/// Returns commands as text, each with a `;` after it.
fn text_of(alloc: Global, commands: &[StoredCommand]) -> Result<String, AllocError> {
    let mut text = String::new(alloc);
    for command in commands {
        push_command(&mut text, command)?;
    }
    Ok(text)
}

/// Returns the commands of the store on a disk as text, each with a `;`, or why it is none.
fn commands_on<D: Disk + Drop>(alloc: Global, disk: D) -> Result<String, AllocError> {
    if !disk.may_be_used() {
        return String::from_str(alloc, "no disk");
    }
    match CommandStore::open(alloc, disk) {
        Ok((_store, commands)) => text_of(alloc, &commands),
        Err((fault, _disk)) => format!(in alloc; "{fault}"),
    }
}

/// Returns the commands of the store at a path as text, each with a `;`, or why it is none.
pub(crate) fn commands_at(rt: &HostRuntime, path: &str) -> Result<String, AllocError> {
    match open(rt, path, Unknown) {
        Ok(file) => commands_on(rt.alloc(), file),
        Err(_) => String::from_str(rt.alloc(), "no file"),
    }
}
