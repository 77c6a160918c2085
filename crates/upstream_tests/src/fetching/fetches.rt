//! Fetches of ids, from the queue to what is held.

use crate::listed_upstream::{ListedUpstream, place};
use crate::texts::same;
use gateway_requests::Fault;
use schema_registry::SharedRegistry;
use std::alloc::{AllocError, Global};
use std::sync::atomic::{AtomicU64, Ordering};
use std::sync::{Mutex, Wait};
use std::test::Fail;
use std::time::{Clock, Duration, Instant};
use upstream_fetching::{FetchQueue, Watcher, run_fetcher};
use upstream_schemas::{Upstream, UpstreamSchemas};

/// The exchanges, in the order in which the ids are asked for.
const EXCHANGES: &str = r#"1 HTTP/1.1 404 Not Found|content-length: 22||{"error_code":40403}|
2 Closed
2 HTTP/1.1 200 OK|content-length: 20||{"schema":"\"int\""}
3 SSH-2.0-OpenSSH_9.6|
4 Late
5 Closed
5 Closed
6 HTTP/1.1 404 Not Found|content-length: 18||{"error_code":404}
7 HTTP/1.1 200 OK|content-length: 49||{"schemaType":"PROTOBUF","schema":"message A {}"}
8 HTTP/1.1 200 OK|content-length: 22||{"schema":"\"whole\""}
"#;

/// The number of ids.
const IDS: u32 = 8;

/// What is answered where each id is asked for, what the watcher notes of its fetch, the number of exchanges, and of
/// each id that it is held, or what is answered where it is asked for again.
const FOUND: &str = "\
1 Waits
2 Waits
3 Waits
4 Waits
5 Waits
6 Waits
7 Waits
8 Waits
1 Some(NoSchema)
2 None
3 Some(Upstream(BadAnswer))
4 Some(Upstream(Late))
5 Some(Upstream(BadAnswer))
6 Some(Upstream(BadAnswer))
7 Some(NotAvro)
8 Some(BadSchema(Unknown))
10 exchanges
1 Failed(NoSchema)
2 held
3 Failed(Upstream(BadAnswer))
4 Failed(Upstream(Late))
5 Failed(Upstream(BadAnswer))
6 Failed(Upstream(BadAnswer))
7 Failed(NotAvro)
8 Failed(BadSchema(Unknown))
";

/// A watcher that notes each fetch that has ended in a line, and ends the queue after `IDS` of them.
#[derive(Drop)]
struct NotingWatcher<'a, R: Wait, U: Upstream> {
    rt: &'a R,
    queue: &'a FetchQueue<U>,
    count: AtomicU64,
    notes: Mutex<String>,
}

/// Appends the note of a fetch. Returns whether memory was left for it.
fn note(notes: &mut String, id: u32, fault: Option<Fault>) -> bool {
    write!(notes, "{id} {fault:?}\n").is_ok()
}

impl<'a, R: Wait, U: Upstream> Watcher for NotingWatcher<'a, R, U> {
    fn fetched(&self, id: u32, fault: Option<Fault>, _time: Duration) {
        let mut notes = self.notes.lock(self.rt);
        let is_noted = note(&mut *notes, id, fault);
        let before = self.count.fetch_add(1, Ordering::SeqCst);
        if !is_noted || before.saturating_add(1) >= u64::from(IDS) {
            self.queue.end(self.rt);
        }
    }
}

/// Asks for the ids, and appends what is answered.
fn push_asked<R: Wait>(
    rt: &R,
    queue: &FetchQueue<ListedUpstream>,
    text: &mut String,
    now: Instant,
) -> Result<(), AllocError> {
    for id in 1..=IDS {
        let asked = queue.ask(rt, id, now, None);
        write!(text, "{id} {asked:?}\n")?;
    }
    Ok(())
}

/// Appends of each id that it is held, or what is answered where it is asked for again.
fn push_held<R: Wait>(
    rt: &R,
    schemas: &UpstreamSchemas<'_, ListedUpstream>,
    queue: &FetchQueue<ListedUpstream>,
    text: &mut String,
    now: Instant,
) -> Result<(), AllocError> {
    for id in 1..=IDS {
        if schemas.find(id).is_some() {
            write!(text, "{id} held\n")?;
        } else {
            let asked = queue.ask(rt, id, now, None);
            write!(text, "{id} {asked:?}\n")?;
        }
    }
    Ok(())
}

/// Fetches the ids of a queue, and appends the notes of a watcher, and the number of exchanges.
fn push_fetched<R: Wait + Clock>(
    rt: &R,
    schemas: &UpstreamSchemas<'_, ListedUpstream>,
    queue: &FetchQueue<ListedUpstream>,
    text: &mut String,
) -> Result<(), AllocError> {
    let upstream = ListedUpstream::new(schemas.alloc(), EXCHANGES);
    let watcher = NotingWatcher {
        rt,
        queue,
        count: AtomicU64::new(0),
        notes: Mutex::new(String::new(schemas.alloc())),
    };
    run_fetcher(rt, schemas, &upstream, queue, &watcher);
    let notes = watcher.notes.lock(rt);
    write!(text, "{}{} exchanges\n", notes.as_str(), upstream.count())
}

/// Returns what comes of the ids, as `FOUND` has it.
fn fetched_to<R: Wait + Clock>(
    rt: &R,
    schemas: &UpstreamSchemas<'_, ListedUpstream>,
    now: Instant,
) -> Result<String, AllocError> {
    let queue = FetchQueue::new(schemas.alloc());
    let mut text = String::new(schemas.alloc());
    push_asked(rt, &queue, &mut text, now)?;
    push_fetched(rt, schemas, &queue, &mut text)?;
    push_held(rt, schemas, &queue, &mut text, now)?;
    Ok(text)
}

/// Returns what comes of the ids where nothing is held at first, as `FOUND` has it.
fn fetched<R: Wait + Clock>(rt: &R, alloc: Global, now: Instant) -> Result<String, AllocError> {
    let registry = SharedRegistry::new(alloc)?;
    let schemas = UpstreamSchemas::new(rt, alloc, &registry, place(alloc)?)?;
    fetched_to(rt, &schemas, now)
}

#[test]
fn each_id_is_fetched(rt: HostRuntime) -> Result<(), Fail> {
    same(&rt, &fetched(&rt, rt.alloc(), Instant::now(&rt)?)?, FOUND);
    Ok(())
}
