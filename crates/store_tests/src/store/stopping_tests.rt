//! A store over a real file whose disk stops at each call in turn.

use crate::disks::{is_begun, is_removed};
use crate::same::same;
use crate::store::stores::{commands_at, made_at};
use journal_file::{Unknown, open};
use registry_store::CommandStore;
use sqlite_disk::{Disk, Fuse};
use std::alloc::{AllocError, Global};

/// Sets a level in the store on a disk. Returns whether that was `Ok`.
fn is_kept_on<D: Disk + Drop>(alloc: Global, disk: D) -> bool {
    if !disk.may_be_used() {
        return false;
    }
    match CommandStore::open(alloc, disk) {
        Ok((mut store, _commands)) => store.keep_level(Some("orders"), "NONE").is_ok(),
        Err(_) => false,
    }
}

/// Sets a level in the store at a path, over a disk that stops after `calls` calls. Returns whether that was `Ok`.
fn is_kept_at(rt: &HostRuntime, path: &str, calls: u64) -> bool {
    match open(rt, path, Unknown) {
        // `open` makes four calls.
        Ok(file) => is_kept_on(rt.alloc(), Fuse::new(file, calls.saturating_add(4))),
        Err(_) => false,
    }
}

/// Appends a line: whether a level is kept over a disk that stops after this many calls, and which commands the store
/// has then.
fn push_row(rt: &HostRuntime, text: &mut String, calls: u64) -> Result<(), AllocError> {
    const FOLDER: &str = "registry_store_stop";
    const PATH: &str = "registry_store_stop/registry";
    let is_made = is_begun(rt, FOLDER) && made_at(rt, PATH).is_some();
    let is_kept = is_kept_at(rt, PATH, calls);
    let commands = commands_at(rt, PATH)?;
    let is_whole = is_made && is_removed(rt, FOLDER);
    write!(
        text,
        "{calls}: kept {is_kept}, {commands} made and removed {is_whole}\n"
    )
}

/// Returns a line for each number of calls after which the disk may stop.
fn rows(rt: &HostRuntime) -> Result<String, AllocError> {
    let mut text = String::new(rt.alloc());
    for calls in 0..=4 {
        push_row(rt, &mut text, calls)?;
    }
    Ok(text)
}

/// What `rows` returns. The gate is open in the file once it was written, which is the third call.
const ROWS: &str = "\
0: kept false, 1 orders \"int\"; made and removed true
1: kept false, 1 orders \"int\"; made and removed true
2: kept false, 1 orders \"int\"; made and removed true
3: kept false, 1 orders \"int\";orders NONE; made and removed true
4: kept true, 1 orders \"int\";orders NONE; made and removed true
";

#[test]
fn a_command_that_stops_at_each_call(rt: HostRuntime) -> Result<(), AllocError> {
    let rows = rows(&rt)?;
    same(&rt, rows.as_str(), ROWS);
    Ok(())
}
