//! Registry; the disk that the program gives to `line_journal`.
//!
//! One file of the operating system that no other process has open, as a `Disk`, with a record of its calls.
//!
//! A theorem over a `Disk` speaks of a real file where its record is honest: each answer is that of a disk as
//! `sqlite_disk` has it. No proof shows that. What has to be read and trusted for it:
//!
//! - Each method of `host.rt` makes the call that it notes, and notes it with the answer that it got.
//! - `settle` syncs the file and its folder before the record begins, so that what is read is what is on the disk.
//! - No other code writes the file. `open` and `make` hold a lock, which binds only programs that ask for it.
//! - `Unknown` supposes that a crash leaves each byte that was written over as it was or as it was to be.
//! - After a crash the file is one of those that the record allows, and the next `open` finds it.
//! - The record has no bytes in memory. The proofs of `Record::new` and `Record::note` are by hand, and no other proof
//!   by hand sets it.
#![tactic(auto)]

mod error;
mod host;
mod locking;
mod opening;
mod record;

pub use error::FileError;
pub use host::Host;
pub use opening::{make, open};
pub use sqlite_disk::{Start, Unknown};

/// A file that held what `S` says when it was opened.
pub type FileFrom<S> = sqlite_disk::Modelled<Host, S>;

/// A file as one type without parameters, for the code of a program. Its start names an empty file: a theorem about a
/// file that was there is one over any `S: Start` or any `D: Disk`.
pub type JournalFile = FileFrom<Unknown>;
