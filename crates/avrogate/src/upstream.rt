//! The upstream registry that the words name.

ghost use Rattle.std.specs.Prelude.{ℕ, List};

use crate::ending::told;
use command_line::ServeWords;
use commands::Status;
use gateway_requests::{Fault, fault_message};
use registry_store::KeptSchema;
use schema_registry::{Keeper, Progress};
use std::net::{Net, SocketAddr, TcpStream};
use std::sync::Wait;
use std::time::Duration;
use std::{fs, io};
use store_commands::{FileSchemas, FileStore, StoreRefusal, TimedProgress, open_schemas};
use upstream_fetching::{
    Beginning, Dial, MOST_ADDRESSES, Target, UrlFault, credentials_of, target_of,
};
use upstream_schemas::{Upstream, UpstreamSchemas};

/// What connects by the program's runtime.
#[derive(Drop)]
pub(crate) struct HostDial<'a> {
    pub(crate) host: &'a HostRuntime,
}

impl<'a> Dial for HostDial<'a> {
    fn look_up(
        &self,
        host: &str,
        port: u16,
        found: &mut [SocketAddr; MOST_ADDRESSES],
    ) -> io::Result<usize> {
        self.host.lookup_host(host, port, found)
    }

    fn dial(&self, address: SocketAddr, time: Duration) -> io::Result<TcpStream> {
        TcpStream::connect_timeout(self.host, &address, time)
    }
}

/// Returns the credentials in a file, or none where no file is named. An `Err` is the end of the program: what is wrong
/// with the file was printed.
fn credentials_in(host: &HostRuntime, path: Option<&str>) -> Result<String, Status> {
    let Some(path) = path else {
        return Ok(String::new(host.alloc()));
    };
    let bytes = match fs::read(host, path) {
        Ok(bytes) => bytes,
        Err(error) if error.kind() == io::ErrorKind::OutOfMemory => return Err(Status::NoMemory),
        Err(error) => {
            let _ = println!(host; "cannot read {path}: {error}");
            return Err(Status::BadTraffic);
        }
    };
    match credentials_of(host.alloc(), &bytes) {
        Ok(credentials) => Ok(credentials),
        Err(fault) => {
            let _ = println!(host; "no credentials in {path}: {fault}");
            Err(Status::BadTraffic)
        }
    }
}

/// The schemas that the file of a store had when it was opened; `UpstreamStore::open` says that they are the file's.
#[derive(Drop)]
pub(crate) struct StoredSchemas {
    pub(crate) schemas: Vec<KeptSchema>,
}

impl Beginning for StoredSchemas {
    ghost use Rattle.std.specs.Prelude.{⊤};

    // What a file has at a moment has no model here: all that is proved is proved for every `Beginning`.
    ghost said = { λ id text. ⊤ };

    fn schemas(&self) -> &[KeptSchema] {
        &self.schemas
    }
}

/// The upstream registry: what connects, where it is, who asks, and the store of its schemas where the words name one.
#[derive(Drop)]
pub(crate) struct Side<'a, D: Dial, K: Keeper> {
    pub(crate) dial: &'a D,
    pub(crate) target: Target,
    /// The URL under which a store keeps its schemas: that of the words without credentials or a port 80.
    pub(crate) url: String,
    pub(crate) credentials: String,
    pub(crate) store: Option<K>,
    /// The schemas that the store had.
    pub(crate) beginning: StoredSchemas,
}

/// Returns the store of the schemas of the upstream registry of a URL, or none where the words name none. An `Err` is
/// the end of the program: a store that is refused was printed.
fn store_of(
    host: &HostRuntime,
    path: Option<&str>,
    url: &str,
) -> Result<Option<FileSchemas>, Status> {
    let Some(path) = path else {
        return Ok(None);
    };
    match open_schemas(host, host.alloc(), path, url) {
        Ok(store) => Ok(Some(store)),
        Err(StoreRefusal::NoMemory) => Err(Status::NoMemory),
        Err(refusal) => Err(told(host, &refusal)),
    }
}

/// Prints why the schema in a line of a store, by its number from 1, is not held, and returns how the program ends.
fn unheld(host: &HostRuntime, number: usize, fault: Fault) -> Status {
    let Ok(why) = fault_message(host.alloc(), fault) else {
        return Status::NoMemory;
    };
    if fault == Fault::NoMemory {
        return Status::NoMemory;
    }
    let _ = println!(host; "line {number} of the store is not held: {why}");
    Status::BadTraffic
}

/// Holds the schemas that a store has, each for its id, in the order of its lines. An `Err` is the end of the program:
/// a schema that is not held was printed.
pub(crate) fn hold_kept<R: Wait, U: Upstream, B: Beginning>(
    host: &HostRuntime,
    rt: &R,
    schemas: &UpstreamSchemas<'_, U>,
    beginning: &B,
) -> Result<(), Status>
    requires { (id : ℕ) (text : List ℕ) → B.said id text → U.kept id text }
{
    let mut progress = TimedProgress::new(host);
    let kept = beginning.schemas();
    let mut number: usize = 0;
    for schema in kept {
        number = number.saturating_add(1);
        if let Err(fault) = schemas.hold(rt, schema.id, &schema.text) {
            return Err(unheld(host, number, fault));
        }
        progress.done(number, kept.len());
    }
    Ok(())
}

/// Returns the upstream registry of a URL, with the credentials and the store of the files that the words name.
///
/// An `Err` is the end of the program: what is wrong was printed; a bad URL is reported as bad words.
pub(crate) fn side_of<'a>(
    host: &HostRuntime,
    dial: &'a HostDial<'a>,
    url: &str,
    words: &ServeWords<'_>,
) -> Result<Side<'a, HostDial<'a>, FileStore>, Status> {
    let target = match target_of(host.alloc(), url) {
        Ok(target) => target,
        Err(UrlFault::NoMemory) => return Err(Status::NoMemory),
        Err(fault) => {
            let _ = eprintln!(host; "error: '--upstream <URL>': {fault}");
            return Err(Status::BadWords);
        }
    };
    let Ok(url) = format!(in host.alloc(); "http://{}{}", target.authority, target.prefix) else {
        return Err(Status::NoMemory);
    };
    let credentials = credentials_in(host, words.upstream_credentials)?;
    let (store, schemas) = match store_of(host, words.store, url.as_str())? {
        Some(found) => (Some(found.store), found.schemas),
        None => (None, Vec::new(host.alloc())),
    };
    Ok(Side {
        dial,
        target,
        url,
        credentials,
        store,
        beginning: StoredSchemas { schemas },
    })
}
