//! Tests of `journal_file` over files of the operating system.

use crate::disks::{is_begun, is_removed, lines_of};
use crate::same::same;
use journal_file::{FileError, Unknown, make, open};
use sqlite_disk::Disk;
use std::alloc::AllocError;
use std::fs;
use std::os::unix::fs::symlink;

/// Returns what a file was opened or made as, or why it was not.
fn word_of<T: Drop>(answer: Result<T, FileError>) -> &'static str {
    match answer {
        Ok(_) => "a file",
        Err(FileError::Missing) => "missing",
        Err(FileError::Exists) => "exists",
        Err(FileError::NotAFile) => "not a file",
        Err(FileError::TwoNames) => "two names",
        Err(FileError::Empty) => "empty",
        Err(FileError::Busy) => "busy",
        Err(FileError::Io(_)) => "io",
    }
}

/// Opens the file at a path. Returns what comes of it.
fn opened(rt: &HostRuntime, path: &str) -> &'static str {
    word_of(open(rt, path, Unknown))
}

/// Makes a file at a path. Returns what comes of it.
fn made(rt: &HostRuntime, path: &str) -> &'static str {
    word_of(make(rt, path, Unknown))
}

/// Writes `abc` from offset 3 on. Returns whether it is written.
fn is_written<D: Disk>(disk: &mut D) -> bool {
    if !disk.may_be_used() {
        return false;
    }
    let is_written = disk.write_at(3, b"abc").is_ok();
    is_written & disk.sync().is_ok()
}

/// Returns whether a disk has what `is_written` wrote, and has one byte once it is cut.
fn is_read_and_cut<D: Disk>(disk: &mut D) -> bool {
    if !disk.may_be_used() {
        return false;
    }
    let mut back = [0; 4];
    let mut right = matches!(disk.len(), Ok(6));
    right &= disk.read_at(2, &mut back).is_ok();
    right &= back == *b"\0abc";
    right &= disk.set_len(1).is_ok();
    right &= matches!(disk.len(), Ok(1));
    right & disk.read_at(0, &mut back).is_err()
}

const PATH: &str = "journal_file_test/a";

/// Makes the file and writes it. Returns what comes of the file while it is open.
fn words_of_a_made_file(rt: &HostRuntime) -> [&'static str; 3] {
    match make(rt, PATH, Unknown) {
        Ok(mut file) => {
            let is_written = is_written(&mut file);
            let first = if is_written { "written" } else { "not written" };
            [first, opened(rt, PATH), made(rt, PATH)]
        }
        Err(_) => ["not made"; 3],
    }
}

/// Opens the file again. Returns whether it has what was written, and is cut.
fn is_found_again(rt: &HostRuntime) -> bool {
    match open(rt, PATH, Unknown) {
        Ok(mut file) => is_read_and_cut(&mut file),
        Err(_) => false,
    }
}

/// Returns what comes of a file that is not there, is made, and is found again, each as a line.
fn answers_of_a_file(rt: &HostRuntime) -> Result<String, AllocError> {
    const FOLDER: &str = "journal_file_test";
    let is_begun = is_begun(rt, FOLDER);
    let missing = opened(rt, PATH);
    let made = words_of_a_made_file(rt);
    let is_found = is_found_again(rt);
    let is_removed = is_removed(rt, FOLDER);
    let made = lines_of(rt.alloc(), &made)?;
    format!(in rt.alloc();
        "begun {is_begun}\n{missing}\n{made}found again {is_found}\nremoved {is_removed}"
    )
}

/// What `answers_of_a_file` returns.
const ANSWERS: &str = "\
begun true
missing
written
busy
exists
found again true
removed true";

#[test]
fn a_file_is_made_once_and_found_again(rt: HostRuntime) -> Result<(), AllocError> {
    let answers = answers_of_a_file(&rt)?;
    same(&rt, answers.as_str(), ANSWERS);
    Ok(())
}

const FIRST: &str = "journal_file_refused/a";

const SECOND: &str = "journal_file_refused/b";

/// Returns what comes of a folder, of a device, and of paths in a folder that is not there.
fn words_of_no_files(rt: &HostRuntime, folder: &str) -> [&'static str; 4] {
    const NOWHERE: &str = "journal_file_refused/no/a";
    let folder = opened(rt, folder);
    let device = opened(rt, "/dev/null");
    let missing = opened(rt, NOWHERE);
    let unmade = made(rt, NOWHERE);
    [folder, device, missing, unmade]
}

/// Returns what comes of an empty file, of a link, of a file in its place, of two names, and of the one that is left,
/// and whether these were there.
fn words_of_names(rt: &HostRuntime) -> [&'static str; 6] {
    let mut is_done = fs::write(rt, FIRST, b"".as_slice()).is_ok();
    let empty = opened(rt, FIRST);
    is_done &= fs::write(rt, FIRST, b"-".as_slice()).is_ok();
    is_done &= symlink(rt, "a", SECOND).is_ok();
    let link = opened(rt, SECOND);
    let over_link = made(rt, SECOND);
    is_done &= fs::remove_file(rt, SECOND).is_ok();
    is_done &= fs::hard_link(rt, FIRST, SECOND).is_ok();
    let two_names = opened(rt, FIRST);
    is_done &= fs::remove_file(rt, SECOND).is_ok();
    let one_name = opened(rt, FIRST);
    let end = if is_done { "done" } else { "not done" };
    [empty, link, over_link, two_names, one_name, end]
}

/// Returns what comes of files that are refused, each as a line.
fn refusals(rt: &HostRuntime) -> Result<String, AllocError> {
    const FOLDER: &str = "journal_file_refused";
    let is_begun = is_begun(rt, FOLDER);
    let no_files = words_of_no_files(rt, FOLDER);
    let names = words_of_names(rt);
    let is_removed = is_removed(rt, FOLDER);
    let no_files = lines_of(rt.alloc(), &no_files)?;
    let names = lines_of(rt.alloc(), &names)?;
    format!(in rt.alloc(); "begun {is_begun}\n{no_files}{names}removed {is_removed}")
}

/// What `refusals` returns.
const REFUSALS: &str = "\
begun true
not a file
not a file
missing
io
empty
not a file
exists
two names
a file
done
removed true";

#[test]
fn what_is_no_file_of_lines_is_refused(rt: HostRuntime) -> Result<(), AllocError> {
    let refusals = refusals(&rt)?;
    same(&rt, refusals.as_str(), REFUSALS);
    Ok(())
}
