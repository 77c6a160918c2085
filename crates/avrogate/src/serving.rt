//! The service, over a registry that may be kept in a file.

ghost use Rattle.std.specs.Prelude.{ℕ, List};

use crate::ending::{status_of, told};
use crate::upstream::{HostDial, Side, hold_kept, side_of};
use command_line::ServeWords;
use commands::Status;
use gateway_server::{Persistence, ServeOptions, Source, serve_beside, serve_on};
use schema_registry::{Keeper, SharedRegistry};
use std::alloc::AllocError;
use std::hash::RandomState;
use std::net::{Net, SocketAddr, TcpListener, TcpStream};
use std::rt::Clock;
use std::sync::Wait;
use std::thread::Threads;
use std::time::Duration;
use store_commands::{StoreRefusal, open_registry};
use upstream_answers::Place;
use upstream_fetching::{Beginning, Dial, KeptUpstream, Network, Target};
use upstream_schemas::{Upstream, UpstreamSchemas};

/// How many times as long as the upstream registry may take a request waits for it, which may have to wait for its
/// turn.
const PATIENCE: u64 = 2;

/// Returns how connections stay by the words of a service. `None` where they do not. An `Err` is the end of the
/// program: that the system gave no random bytes was printed.
fn persistence_of(
    host: &HostRuntime,
    words: &ServeWords<'_>,
) -> Result<Option<Persistence>, Status> {
    if !words.is_persistent {
        return Ok(None);
    }
    match RandomState::new(host) {
        Ok(keys) => Ok(Some(Persistence {
            keys,
            idle: Duration::from_secs(u64::from(words.idle_timeout)),
        })),
        Err(error) => {
            let _ = println!(host; "no random bytes: {error}");
            Err(Status::BadTraffic)
        }
    }
}

/// Returns how a service is to run by its words. An `Err` is the end of the program, as of `persistence_of`.
fn options_of(host: &HostRuntime, words: &ServeWords<'_>) -> Result<ServeOptions, Status> {
    let persistence = persistence_of(host, words)?;
    Ok(ServeOptions {
        clients: words.clients,
        workers: words.workers,
        each: words.each,
        connections: words.connections,
        head_timeout: Duration::from_secs(u64::from(words.head_timeout)),
        request_timeout: Duration::from_secs(u64::from(words.request_timeout)),
        patience: Duration::from_secs(u64::from(words.upstream_timeout) * PATIENCE),
        persistence,
        is_logged: words.is_logged,
    })
}

/// Returns the registry that is served: that of the file that the words name, or an empty one that ends with the
/// process.
fn registry_of<'w>(
    host: &HostRuntime,
    words: &ServeWords<'w>,
) -> Result<SharedRegistry, StoreRefusal<'w>> {
    match words.store {
        Some(path) => open_registry(host, host.alloc(), path),
        None => Ok(SharedRegistry::new(host.alloc())?),
    }
}

/// Returns a listener at the address of the words. An `Err` is the end of the program: an address that cannot be
/// listened on was printed, and is bad traffic.
fn listener_of<R: Net<Listener = TcpListener, Stream = TcpStream> + Print + AllocGlobal>(
    rt: &R,
    words: &ServeWords<'_>,
) -> Result<TcpListener, Status> {
    let address = SocketAddr::new(words.address, words.port);
    let Ok(address) = format!(in rt.alloc(); "{address}") else {
        return Err(Status::NoMemory);
    };
    match TcpListener::bind(rt, address.as_str()) {
        Ok(listener) => Ok(listener),
        Err(error) => {
            let _ = println!(rt; "cannot listen on {address}: {error}");
            Err(Status::BadTraffic)
        }
    }
}

/// Serves a registry over HTTP.
fn serve_registry<
    R: Net<Listener = TcpListener, Stream = TcpStream>
        + Threads
        + Wait
        + Clock
        + Sync
        + Print
        + AllocGlobal,
>(rt: &R, host: &HostRuntime, words: &ServeWords<'_>, registry: &SharedRegistry) -> Status {
    let listener = match listener_of(rt, words) {
        Ok(listener) => listener,
        Err(status) => return status,
    };
    let options = match options_of(host, words) {
        Ok(options) => options,
        Err(status) => return status,
    };
    if !options.is_within() {
        return Status::BadWords;
    }
    let mut writer = std::io::writer(rt);
    match serve_on(rt, rt.alloc(), &listener, &options, registry, &mut writer) {
        Ok(()) => Status::Answered,
        Err(error) => status_of(Err(error)),
    }
}

/// What is kept of an upstream registry: under which URL, in which store, and the schemas that the store had.
#[derive(Drop)]
struct Kept<'x, K: Keeper, B: Beginning> {
    url: &'x str,
    store: Option<K>,
    beginning: &'x B,
}

/// Serves HTTP by the ids of an upstream registry at a place, over a registry of this process that holds its schemas;
/// at first those that a store had.
fn serve_held<
    R: Net<Listener = TcpListener, Stream = TcpStream>
        + Threads
        + Wait
        + Clock
        + Sync
        + Print
        + AllocGlobal,
    U: Upstream + Send + Sync,
    B: Beginning + Send + Sync,
>(
    rt: &R,
    host: &HostRuntime,
    words: &ServeWords<'_>,
    upstream: &U,
    place: Place,
    beginning: &B,
) -> Result<Status, AllocError>
    requires { (id : ℕ) (text : List ℕ) → B.said id text → U.kept id text }
{
    let registry = SharedRegistry::new(rt.alloc())?;
    let schemas = UpstreamSchemas::new(rt, rt.alloc(), &registry, place)?;
    if let Err(status) = hold_kept(host, rt, &schemas, beginning) {
        return Ok(status);
    }
    let listener = match listener_of(rt, words) {
        Ok(listener) => listener,
        Err(status) => return Ok(status),
    };
    let options = match options_of(host, words) {
        Ok(options) => options,
        Err(status) => return Ok(status),
    };
    if !options.is_within() {
        return Ok(Status::BadWords);
    }
    let mut writer = std::io::writer(rt);
    let source = Source {
        schemas: &schemas,
        upstream,
    };
    match serve_beside(rt, &listener, &options, &source, &mut writer) {
        Ok(()) => Ok(Status::Answered),
        Err(error) => Ok(status_of(Err(error))),
    }
}

/// Serves HTTP by the ids of an upstream registry that is asked over a network, and keeps its schemas where there is a
/// store.
fn serve_by_ids<
    'x,
    R: Net<Listener = TcpListener, Stream = TcpStream>
        + Threads
        + Wait
        + Clock
        + Sync
        + Print
        + AllocGlobal,
    U: Upstream + Send + Sync,
    K: Keeper + Send + Drop,
    B: Beginning + Send + Sync,
>(
    rt: &'x R,
    host: &HostRuntime,
    words: &ServeWords<'_>,
    network: &'x U,
    place: Place,
    kept: Kept<'x, K, B>,
) -> Result<Status, AllocError> {
    let upstream = KeptUpstream::<'_, R, U, K, B>::new(rt, network, kept.url, kept.store);
    serve_held(rt, host, words, &upstream, place, kept.beginning)
}

/// Serves HTTP by the ids of an upstream registry.
fn serve_upstream<
    'x,
    R: Net<Listener = TcpListener, Stream = TcpStream>
        + Threads
        + Wait
        + Clock
        + Sync
        + Print
        + AllocGlobal,
    D: Dial + Sync,
    K: Keeper + Send + Drop,
>(
    rt: &'x R,
    host: &HostRuntime,
    words: &ServeWords<'_>,
    side: Side<'x, D, K>,
) -> Result<Status, AllocError> {
    let Side {
        dial,
        target,
        url,
        credentials,
        store,
        beginning,
    } = side;
    let Target {
        authority,
        host: name,
        port,
        prefix,
    } = target;
    let place = Place {
        host: authority,
        prefix,
        credentials,
    };
    let network = Network {
        alloc: rt.alloc(),
        dial,
        clock: rt,
        host: name.as_str(),
        port,
        time: Duration::from_secs(u64::from(words.upstream_timeout)),
    };
    let kept = Kept {
        url: url.as_str(),
        store,
        beginning: &beginning,
    };
    serve_by_ids(rt, host, words, &network, place, kept)
}

/// Serves HTTP, once the store is open where the words name one, or beside an upstream registry where they name that. A
/// store that is refused is printed, and is bad traffic.
pub(crate) fn serve<
    R: Net<Listener = TcpListener, Stream = TcpStream>
        + Threads
        + Wait
        + Clock
        + Sync
        + Print
        + AllocGlobal,
>(rt: &R, host: &HostRuntime, words: &ServeWords<'_>) -> Result<Status, AllocError> {
    if let Some(url) = words.upstream {
        let dial = HostDial { host };
        return match side_of(host, &dial, url, words) {
            Ok(side) => serve_upstream(rt, host, words, side),
            Err(status) => Ok(status),
        };
    }
    match registry_of(host, words) {
        Ok(registry) => Ok(serve_registry(rt, host, words, &registry)),
        Err(StoreRefusal::NoMemory) => Ok(Status::NoMemory),
        Err(refusal) => Ok(told(rt, &refusal)),
    }
}
