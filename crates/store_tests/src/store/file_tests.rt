//! A registry's file as a person reads it.

use crate::disks::{contents, is_begun, is_removed};
use crate::same::same;
use crate::store::stores::{commands_at, made_at};
use journal_file::{Unknown, open};
use registry_store::{CommandStore, StoreFault};
use sqlite_disk::Disk;
use std::alloc::{AllocError, Global};
use std::fs;

/// Adds a level and a registration to a store. Returns whether both are kept.
fn keeps_two<D: Disk>(store: &mut CommandStore<D>) -> bool {
    store.keep_level(None, "FULL").is_ok() && store.keep_registration(2, "a *", "\"long\"").is_ok()
}

/// Returns what a file has and is read as, to which two commands are added.
fn three_commands(rt: &HostRuntime) -> Result<String, AllocError> {
    const FOLDER: &str = "registry_store_lines";
    const PATH: &str = "registry_store_lines/registry";
    let _ = is_begun(rt, FOLDER);
    let is_kept = match made_at(rt, PATH) {
        Some(mut store) => keeps_two(&mut store),
        None => false,
    };
    let bytes = contents(rt, PATH)?;
    let commands = commands_at(rt, PATH)?;
    let is_removed = is_removed(rt, FOLDER);
    format!(in rt.alloc(); "kept {is_kept}\n{bytes}\n{commands}\nremoved {is_removed}")
}

/// What `three_commands` returns: what `made_at` leaves, and then a level and a registration, with checks that
/// `sha256sum` gave.
const THREE_COMMANDS: &str = "\
kept true
++register 1 orders \"int\" 22b20c4a80590a42
++level * FULL 4026cada239cc4ff
++register 2 a%20%2A \"long\" cf5d6a24a3c1f0da
--
1 orders \"int\";global FULL;2 a * \"long\";
removed true";

#[test]
fn a_file_is_lines(rt: HostRuntime) -> Result<(), AllocError> {
    let found = three_commands(&rt)?;
    same(&rt, found.as_str(), THREE_COMMANDS);
    Ok(())
}

/// Sets a level, takes it back and sets another. Returns whether all of it is done.
fn sets_another_level<D: Disk>(store: &mut CommandStore<D>) -> bool {
    let is_kept = store.keep_level(Some("orders"), "NONE").is_ok();
    store.take_back();
    let takes_commands = store.takes_commands();
    let is_set = store.keep_level(Some("orders"), "FULL").is_ok();
    is_kept && takes_commands && is_set
}

/// Takes a command back from the store on a disk to which none was added since it was opened. Returns whether it takes
/// no more commands then.
fn is_closed_at_once<D: Disk + Drop>(alloc: Global, disk: D) -> bool {
    if !disk.may_be_used() {
        return false;
    }
    let Ok((mut store, _commands)) = CommandStore::open(alloc, disk) else {
        return false;
    };
    store.take_back();
    let takes_commands = store.takes_commands();
    let answer = store.keep_level(None, "FULL");
    !takes_commands && matches!(answer, Err(StoreFault::Closed))
}

/// Returns the commands of a file after its last command was taken back and another one added, and whether all of it
/// was done.
fn last_taken_back(rt: &HostRuntime) -> Result<String, AllocError> {
    const FOLDER: &str = "registry_store_back";
    const PATH: &str = "registry_store_back/registry";
    let _ = is_begun(rt, FOLDER);
    let is_set = match made_at(rt, PATH) {
        Some(mut store) => sets_another_level(&mut store),
        None => false,
    };
    let commands = commands_at(rt, PATH)?;
    let is_closed = match open(rt, PATH, Unknown) {
        Ok(file) => is_closed_at_once(rt.alloc(), file),
        Err(_) => false,
    };
    let is_removed = is_removed(rt, FOLDER);
    format!(in rt.alloc(); "set {is_set}, {commands} closed {is_closed}, removed {is_removed}")
}

#[test]
fn the_last_command_is_taken_back(rt: HostRuntime) -> Result<(), AllocError> {
    let found = last_taken_back(&rt)?;
    same(
        &rt,
        found.as_str(),
        "set true, 1 orders \"int\";orders FULL; closed true, removed true",
    );
    Ok(())
}

/// Returns whether a registration of this text is refused as too long, and the store takes commands then.
fn is_too_long<D: Disk>(store: &mut CommandStore<D>, text: &str) -> bool {
    let answer = store.keep_registration(2, "orders", text);
    matches!(answer, Err(StoreFault::TooLong)) && store.takes_commands()
}

/// Returns a text that is too long for a line.
fn too_long(alloc: Global) -> Result<String, AllocError> {
    let piece = "x".repeat(alloc, 1000)?;
    let mut text = String::new(alloc);
    for _ in 0..1100 {
        text.push_str(&piece)?;
    }
    Ok(text)
}

/// Returns the commands of a file to which one is to be added that is too long, and whether it is refused.
fn too_long_refused(rt: &HostRuntime) -> Result<String, AllocError> {
    const FOLDER: &str = "registry_store_long";
    const PATH: &str = "registry_store_long/registry";
    let text = too_long(rt.alloc())?;
    let _ = is_begun(rt, FOLDER);
    let is_refused = match made_at(rt, PATH) {
        Some(mut store) => is_too_long(&mut store, &text),
        None => false,
    };
    let commands = commands_at(rt, PATH)?;
    let is_removed = is_removed(rt, FOLDER);
    format!(in rt.alloc(); "refused {is_refused}, {commands} removed {is_removed}")
}

#[test]
fn a_line_that_does_not_fit(rt: HostRuntime) -> Result<(), AllocError> {
    let found = too_long_refused(&rt)?;
    same(
        &rt,
        found.as_str(),
        "refused true, 1 orders \"int\"; removed true",
    );
    Ok(())
}

/// Files that are refused, and one without commands.
const FILES: [&str; 5] = [
    "no journal",
    "++register 1 orders \"int\" 22b20c4a80590a42\n++level",
    "++register 1 orders \"int\" 22b20c4a80590a40\n--",
    "++level * FULL 4026cada239cc4ff\n++levels * FULL 727a9868f1d3cb78\n--",
    "--",
];

/// Why they are refused, and the commands of the last one.
const WHY: &str = "\
the file is damaged at byte 0, in line 1
the file is damaged at byte 50, in line 2
line 1: the check at the end of the line is not that of the line
line 2: no command is written as this line

removed true";

/// Appends a line: the commands of a file of these bytes, or why it is none.
fn push_answer(
    rt: &HostRuntime,
    text: &mut String,
    path: &str,
    file: &str,
) -> Result<(), AllocError> {
    let is_written = fs::write(rt, path, file.as_bytes()).is_ok();
    let commands = commands_at(rt, path)?;
    let end = if is_written { "" } else { "not written" };
    write!(text, "{commands}{end}\n")
}

/// Returns why each of `FILES` is refused, as a line.
fn answers_to_files(rt: &HostRuntime) -> Result<String, AllocError> {
    const FOLDER: &str = "registry_store_refused";
    const PATH: &str = "registry_store_refused/registry";
    let mut text = String::new(rt.alloc());
    let _ = is_begun(rt, FOLDER);
    for file in FILES {
        push_answer(rt, &mut text, PATH, file)?;
    }
    let is_removed = is_removed(rt, FOLDER);
    write!(text, "removed {is_removed}")?;
    Ok(text)
}

#[test]
fn a_file_that_is_refused(rt: HostRuntime) -> Result<(), AllocError> {
    let found = answers_to_files(&rt)?;
    same(&rt, found.as_str(), WHY);
    Ok(())
}
