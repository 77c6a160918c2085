//! Opening a file that is there, and making one where there is none.

ghost use Rattle.std.specs.Prelude.{false, IsTrue, IfOk};
ghost use Rattle.journal_file.specs.File.{file_is_usable, IsFresh};

use crate::FileFrom;
use crate::error::FileError;
use crate::host::Host;
use crate::locking::lock;
use sqlite_disk::{Modelled, Start};
use std::fs::OpenOptions;
use std::hash::{BuildHasher, RandomState};
use std::os::unix::fs::OpenOptionsExt;
use std::{fs, io};

/// Opens the file at a path for this process alone. It has to exist and to have a byte: an empty file is what damage
/// may leave of a full one. `S` names what the file holds once it is settled, and its value is used up, so that code
/// over any `S` opens one file.
pub fn open<S: Start>(rt: &HostRuntime, path: &str, _start: S) -> Result<FileFrom<S>, FileError>
    ensures usable { IfOk result (λ file. IsTrue (file_is_usable S.Start file)) }
    ensures fresh { IfOk result (IsFresh false) }
{
    match fs::symlink_metadata(rt, path) {
        Ok(named) if named.is_file() => {}
        Ok(_) => return Err(FileError::NotAFile),
        Err(error) if error.kind() == io::ErrorKind::NotFound => return Err(FileError::Missing),
        Err(error) => return Err(FileError::Io(error)),
    }
    let file = OpenOptions::new().read(true).write(true).open(rt, path)?;
    let file = lock(rt, path, file)?;
    if file.metadata()?.len() == 0 {
        return Err(FileError::Empty);
    }
    settled(rt, path, file)
}

/// Makes an empty file at a path where there is nothing, for this process alone, and syncs its folder. `S` is as for
/// `open`. Where it fails, or stops in a crash, an empty file may be left, which `open` refuses.
pub fn make<S: Start>(rt: &HostRuntime, path: &str, _start: S) -> Result<FileFrom<S>, FileError>
    ensures usable { IfOk result (λ file. IsTrue (file_is_usable S.Start file)) }
    ensures fresh { IfOk result (IsFresh false) }
{
    let made = OpenOptions::new()
        .read(true)
        .write(true)
        .create_new(true)
        .mode(0o644)
        .open(rt, path);
    match made {
        Ok(file) => {
            let file = lock(rt, path, file)?;
            settled(rt, path, file)
        }
        Err(error) if error.kind() == io::ErrorKind::AlreadyExists => Err(FileError::Exists),
        Err(error) => Err(FileError::Io(error)),
    }
}

/// Returns a locked file as a disk, once what is read of it is on the disk.
fn settled<S: Start>(rt: &HostRuntime, path: &str, file: fs::File) -> Result<FileFrom<S>, FileError>
    ensures usable { IfOk result (λ file. IsTrue (file_is_usable S.Start file)) }
    ensures fresh { IfOk result (IsFresh false) }
{
    let mut folder = fs::canonicalize(rt, path)?;
    folder.pop();
    let folder = fs::File::open(rt, folder.as_str())?;
    let key = RandomState::new(rt)?.hash_one(&0u8);
    let host = Host::settle(file, &folder, key)?;
    Ok(Modelled::new(host, false, key))
}
