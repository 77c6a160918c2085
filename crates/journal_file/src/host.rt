//! The calls on a file. Each method makes one call of the operating system, and notes it with its result.
ghost use Rattle.std.specs.Prelude.{◌≡◌, ◌<◌, ◌≤◌, ◌^◌, [], ◌∷◌, length, IfOk};
ghost use Rattle.sqlite_disk.specs.Events.{settled};

use crate::record::Record;
use sqlite_disk::{Calls, is_no_room};
use std::os::fd::AsRawFd;
use std::os::unix::fs::FileExt;
use std::{fs, io};

/// The file was synced, and got its key.
const SETTLED: u64 = 0;

/// Its length was asked.
const MEASURED: u64 = 1;

/// Bytes were read.
const READ: u64 = 2;

/// Bytes were written.
const WRITTEN: u64 = 3;

/// Its length was changed.
const CUT: u64 = 4;

/// It was synced.
const FLUSHED: u64 = 5;

/// Bytes were read that are to have a digest.
const TESTED: u64 = 6;

/// The last offset that the operating system may be asked for.
const MAX_OFFSET: usize = (1 << 63) - 1;

/// An open file of the operating system.
#[derive(Drop)]
pub struct Host {
    file: fs::File,
    log: Record,
}

impl Host {
    /// Syncs a file and its folder, and begins its record. Between the two it asks the kernel to forget its copy of the
    /// file, which may differ from the disk where a sync of an earlier process failed.
    pub(crate) fn settle(file: fs::File, folder: &fs::File, key: u64) -> io::Result<Host>
        ensures { IfOk result (λ host. host.log.events ≡ settled key ∷ []) }
    {
        file.sync_all()?;
        let advised = libc::posix_fadvise(file.as_raw_fd(), 0, 0, libc::POSIX_FADV_DONTNEED);
        if advised != 0 {
            return Err(io::Error::from_raw_os_error(advised));
        }
        folder.sync_all()?;
        let mut log = Record::new();
        log.note(&[SETTLED, key, 0, 1], &[]);
        Ok(Host { file, log })
    }
}

/// Returns how many bytes the file has.
fn measure(file: &fs::File) -> io::Result<usize> {
    Ok(file.metadata()?.len() as usize)
}

/// Reads bytes from offset `at` on, and returns how many came, which is at least one.
fn read(file: &fs::File, at: usize, buf: &mut [u8]) -> io::Result<usize>
    ensures { IfOk result (λ n. (0 < n) × (n ≤ length buf.old) × (at < 2 ^ 63)) }
{
    if at > MAX_OFFSET {
        return Err(io::ErrorKind::InvalidInput.into());
    }
    let got = file.read_at(buf, at as u64)?;
    if got == 0 {
        Err(io::ErrorKind::UnexpectedEof.into())
    } else {
        Ok(got)
    }
}

/// Writes bytes from offset `at` on, and returns how many were taken, which is at least one.
fn write(file: &fs::File, at: usize, bytes: &[u8]) -> io::Result<usize>
    ensures { IfOk result (λ n. (0 < n) × (n ≤ length bytes.now) × (at < 2 ^ 63)) }
{
    if at > MAX_OFFSET {
        return Err(io::ErrorKind::InvalidInput.into());
    }
    let put = file.write_at(bytes, at as u64)?;
    if put == 0 {
        Err(io::ErrorKind::WriteZero.into())
    } else {
        Ok(put)
    }
}

impl Calls for Host {
    ghost history = { λ f. f.log.events };

    fn len(&mut self) -> io::Result<usize> {
        let answer = measure(&self.file);
        match answer {
            Ok(n) => self.log.note(&[MEASURED, n as u64, 0, 1], &[]),
            Err(_) => self.log.note(&[MEASURED, 0, 0, 0], &[]),
        }
        answer
    }

    fn read_some(&mut self, at: usize, buf: &mut [u8]) -> io::Result<usize> {
        let (at64, len) = (at as u64, buf.len() as u64);
        let answer = read(&self.file, at, buf);
        match answer {
            Ok(n) => self.log.note(&[READ, at64, len, 1], &buf[..n]),
            Err(_) => self.log.note(&[READ, at64, len, 0], &[]),
        }
        answer
    }

    fn read_under(&mut self, key: u64, want: u64, at: usize, buf: &mut [u8]) -> io::Result<usize> {
        let (at64, len) = (at as u64, buf.len() as u64);
        let answer = read(&self.file, at, buf);
        match answer {
            Ok(n) => self.log.note(&[TESTED, at64, len, 1, key, want], &buf[..n]),
            Err(_) => self.log.note(&[TESTED, at64, len, 0, key, want], &[]),
        }
        answer
    }

    fn write_some(&mut self, at: usize, bytes: &[u8]) -> io::Result<usize> {
        let answer = write(&self.file, at, bytes);
        match answer {
            Ok(n) => self.log.note(&[WRITTEN, at as u64, n as u64, 1], bytes),
            Err(error) => self.log.note(
                &[WRITTEN, at as u64, u64::from(is_no_room(&error)), 0],
                bytes,
            ),
        }
        answer
    }

    fn resize(&mut self, len: usize) -> io::Result<()> {
        let answer = self.file.set_len(len as u64);
        match answer {
            Ok(()) => self.log.note(&[CUT, len as u64, 0, 1], &[]),
            Err(error) => self
                .log
                .note(&[CUT, len as u64, u64::from(is_no_room(&error)), 0], &[]),
        }
        answer
    }

    fn sync(&mut self) -> io::Result<()> {
        let answer = self.file.sync_data();
        match answer {
            Ok(()) => self.log.note(&[FLUSHED, 0, 0, 1], &[]),
            Err(error) => self
                .log
                .note(&[FLUSHED, 0, u64::from(is_no_room(&error)), 0], &[]),
        }
        answer
    }
}
