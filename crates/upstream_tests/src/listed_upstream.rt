//! An upstream registry to which exchanges come in the order of a list, and where it is asked.

use crate::texts::bytes_of;
use schema_registry::KeepFault;
use std::alloc::{AllocError, Global};
use std::sync::atomic::{AtomicU64, Ordering};
use upstream_answers::Place;
use upstream_schemas::{ExchangeFault, Upstream};

/// What a question is before the id and after it, at the place that `place` returns.
const BEFORE_ID: &str = "GET /schemas/ids/";

const AFTER_ID: &str = " HTTP/1.1\r\nhost: registry:8081\r\n\
     accept: application/vnd.schemaregistry.v1+json\r\nconnection: close\r\n\r\n";

/// Returns a place at which a registry is asked.
pub(crate) fn place_of(
    alloc: Global,
    host: &str,
    prefix: &str,
    credentials: &str,
) -> Result<Place, AllocError> {
    Ok(Place {
        host: String::from_str(alloc, host)?,
        prefix: String::from_str(alloc, prefix)?,
        credentials: String::from_str(alloc, credentials)?,
    })
}

/// Returns where this registry is asked.
pub(crate) fn place(alloc: Global) -> Result<Place, AllocError> {
    place_of(alloc, "registry:8081", "", "")
}

/// An upstream registry to which exchanges come in the order of a text's lines. A line has the id that is asked for and
/// what comes of it: the name of a fault, or an answer as `bytes_of` has it. It is not reached for another question.
#[derive(Drop)]
pub(crate) struct ListedUpstream {
    alloc: Global,
    pub(crate) exchanges: &'static str,
    /// The number of exchanges that have come.
    count: AtomicU64,
    /// What comes of each text that is to be kept.
    keeping: Result<(), KeepFault>,
    /// The sum of the ids that a text was to be kept for.
    kept_ids: AtomicU64,
    /// The number of bytes of the texts that were to be kept.
    kept_bytes: AtomicU64,
}

impl ListedUpstream {
    /// Returns an upstream registry that was not asked yet.
    pub(crate) fn new(alloc: Global, exchanges: &'static str) -> ListedUpstream {
        ListedUpstream::keeping(alloc, exchanges, Ok(()))
    }

    /// Returns one of which this comes of each text that is to be kept.
    pub(crate) fn keeping(
        alloc: Global,
        exchanges: &'static str,
        keeping: Result<(), KeepFault>,
    ) -> ListedUpstream {
        ListedUpstream {
            alloc,
            exchanges,
            count: AtomicU64::new(0),
            keeping,
            kept_ids: AtomicU64::new(0),
            kept_bytes: AtomicU64::new(0),
        }
    }

    /// Returns the number of exchanges that have come.
    pub(crate) fn count(&self) -> u64 {
        self.count.load(Ordering::SeqCst)
    }

    /// Returns the sum of the ids that a text was to be kept for.
    pub(crate) fn kept_ids(&self) -> u64 {
        self.kept_ids.load(Ordering::SeqCst)
    }

    /// Returns the number of bytes of the texts that were to be kept.
    pub(crate) fn kept_bytes(&self) -> u64 {
        self.kept_bytes.load(Ordering::SeqCst)
    }
}

/// Returns whether a question is the one for an id.
fn is_question_for(id: &str, question: &str) -> bool {
    match question.strip_prefix(BEFORE_ID) {
        Some(rest) => rest.strip_prefix(id) == Some(AFTER_ID),
        None => false,
    }
}

/// Returns what comes of an exchange by its text.
fn reply_of(alloc: Global, text: &str) -> Result<Vec<u8>, ExchangeFault> {
    match text {
        "Unreached" => Err(ExchangeFault::Unreached),
        "Closed" => Err(ExchangeFault::Closed),
        "Late" => Err(ExchangeFault::Late),
        "BadAnswer" => Err(ExchangeFault::BadAnswer),
        "NoMemory" => Err(ExchangeFault::NoMemory),
        answer => match bytes_of(alloc, answer) {
            Ok(received) => Ok(received),
            Err(_) => Err(ExchangeFault::NoMemory),
        },
    }
}

/// Returns what comes of a question where a line has the exchange.
fn reply_to(alloc: Global, line: &str, question: &str) -> Result<Vec<u8>, ExchangeFault> {
    let (id, text) = line.split_once(' ').unwrap_or((line, ""));
    if !is_question_for(id, question) {
        return Err(ExchangeFault::Unreached);
    }
    reply_of(alloc, text)
}

impl Upstream for ListedUpstream {
    ghost use Rattle.std.specs.Prelude.{⊤};

    ghost heard = { λ question received. ⊤ };

    ghost kept = { λ id text. ⊤ };

    fn exchange(&self, question: &str) -> Result<Vec<u8>, ExchangeFault> {
        let number = self.count.fetch_add(1, Ordering::SeqCst);
        match self.exchanges.lines().nth(number as usize) {
            Some(line) => reply_to(self.alloc, line, question),
            None => Err(ExchangeFault::Unreached),
        }
    }

    fn keep(&self, id: u32, text: &str) -> Result<(), KeepFault> {
        self.kept_ids.fetch_add(u64::from(id), Ordering::SeqCst);
        self.kept_bytes
            .fetch_add(text.len() as u64, Ordering::SeqCst);
        self.keeping
    }
}
