//! The registry of a file, for a service, and the schemas of an upstream registry in a file.

use crate::progress::TimedProgress;
use crate::refusal::{StoreRefusal, open_refusal, schemas_refusal, start_refusal};
use journal_file::{FileError, JournalFile, Unknown, make, open};
use registry_store::{CommandStore, UpstreamStore};
use schema_registry::{KeptRegistry, SharedRegistry};
use std::alloc::Global;

/// A registry whose commands are kept in a file.
pub(crate) type FileRegistry = KeptRegistry<CommandStore<JournalFile>>;

/// Opens the file that is there, and starts from it. `None` where there is no file.
fn started<'p>(
    rt: &HostRuntime,
    alloc: Global,
    path: &'p str,
) -> Result<Option<FileRegistry>, StoreRefusal<'p>> {
    let file = match open(rt, path, Unknown) {
        Ok(file) => file,
        Err(FileError::Missing) => return Ok(None),
        Err(error) => return Err(open_refusal(path, error)),
    };
    let mut progress = TimedProgress::new(rt);
    match KeptRegistry::open(alloc, file, &mut progress) {
        Ok(kept) => Ok(Some(kept)),
        Err((fault, _file)) => Err(start_refusal(path, fault)),
    }
}

/// Makes a file at a path where there is nothing, with an empty registry. Where it fails, a file without a command may
/// be left.
pub(crate) fn made(rt: &HostRuntime, alloc: Global, path: &str) -> Result<FileRegistry, FileError> {
    let file: JournalFile = make(rt, path, Unknown)?;
    match KeptRegistry::create(alloc, file) {
        Ok(kept) => Ok(kept),
        Err((error, _file)) => Err(FileError::Io(error)),
    }
}

/// Opens the file of a store for this process alone, and returns its registry, in which each command that is answered
/// is kept. Where there is no file it makes one, of an empty registry. The refusal says why not; a file that was there
/// has then the lines that it had.
pub fn open_registry<'p>(
    rt: &HostRuntime,
    alloc: Global,
    path: &'p str,
) -> Result<SharedRegistry, StoreRefusal<'p>> {
    let kept = match started(rt, alloc, path)? {
        Some(kept) => kept,
        None => match made(rt, alloc, path) {
            Ok(kept) => kept,
            Err(error) => return Err(open_refusal(path, error)),
        },
    };
    Ok(SharedRegistry::over(alloc, kept.into_optional())?)
}

/// A store of commands in a file.
pub type FileStore = CommandStore<JournalFile>;

/// The store of an upstream registry's schemas in a file.
pub type FileSchemas = UpstreamStore<JournalFile>;

/// Makes a file at a path where there is nothing, with no schemas. Where it fails, a file without a schema may be left.
fn made_schemas(rt: &HostRuntime, alloc: Global, path: &str) -> Result<FileSchemas, FileError> {
    let file: JournalFile = make(rt, path, Unknown)?;
    match CommandStore::create(alloc, file) {
        Ok(store) => Ok(UpstreamStore {
            store,
            schemas: Vec::new(alloc),
        }),
        Err((error, _file)) => Err(FileError::Io(error)),
    }
}

/// Opens the file of a store for this process alone, which has the schemas of the upstream registry of a URL and
/// nothing else. Where there is no file it makes one, of no schemas. The refusal says why not; a file that was there
/// has then the lines that it had.
pub fn open_schemas<'p>(
    rt: &HostRuntime,
    alloc: Global,
    path: &'p str,
    url: &str,
) -> Result<FileSchemas, StoreRefusal<'p>> {
    match open(rt, path, Unknown) {
        Ok(file) => match UpstreamStore::open(alloc, file, url) {
            Ok(store) => Ok(store),
            Err((fault, _file)) => Err(schemas_refusal(path, fault)),
        },
        Err(FileError::Missing) => match made_schemas(rt, alloc, path) {
            Ok(store) => Ok(store),
            Err(error) => Err(open_refusal(path, error)),
        },
        Err(error) => Err(open_refusal(path, error)),
    }
}
