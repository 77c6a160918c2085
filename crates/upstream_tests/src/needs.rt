//! Tests of `gateway_upstream`: look-ups, and which schemas a request needs.

ghost use Rattle.std.specs.Prelude.{◌≡◌};

use crate::listed_upstream::{ListedUpstream, place};
use crate::texts::same;
use gateway::Schemas;
use gateway_requests::{Fault, Request};
use gateway_upstream::{Looked, Needed, needed_by};
use schema_registry::{Command, SharedRegistry};
use std::alloc::{AllocError, Global};
use std::sync::Wait;
use upstream_schemas::UpstreamSchemas;
use wire_frames::Message;

/// The exchanges of the look-ups of 7 and of 9.
const EXCHANGES: &str = r#"7 HTTP/1.1 200 OK||{"schema":"\"int\""}
9 HTTP/1.1 200 OK||{"schema":"\"int\""}
"#;

/// The ids of what a look-up found: of the receipt, and of the naming.
#[derive(Clone, Copy, Debug)]
struct Ids {
    receipt: u32,
    seen: u32,
}

/// Returns the ids of what a look-up found, or why it found nothing.
fn ids_of(looked: &mut Looked<'_, '_, ListedUpstream>, id: u32) -> Result<Ids, Fault>
    ensures { looked.new ≡ looked.old }
{
    match looked.schema_of(id) {
        Ok(named) => Ok(Ids {
            receipt: named.receipt.id(),
            seen: named.seen.id(),
        }),
        Err(fault) => Err(fault),
    }
}

/// Appends a line of what the look-ups of 7, of 8 and of 9 found.
fn push_looks(
    text: &mut String,
    looked: &mut Looked<'_, '_, ListedUpstream>,
) -> Result<(), AllocError>
    ensures { looked.new ≡ looked.old }
{
    let seven = ids_of(looked, 7);
    let eight = ids_of(looked, 8);
    let nine = ids_of(looked, 9);
    write!(text, "{seven:?}, {eight:?}, {nine:?}\n")
}

/// Asks for the schema of an id, and adds what comes of it to the look-ups.
fn look<R: Wait>(
    rt: &R,
    schemas: &UpstreamSchemas<'_, ListedUpstream>,
    upstream: &ListedUpstream,
    looked: &mut Looked<'_, '_, ListedUpstream>,
    id: u32,
)
    requires { looked.old.names ≡ schemas.now }
    ensures { looked.new.names ≡ looked.old.names }
{
    let found = schemas.ask(rt, upstream, id);
    looked.add(id, found);
}

/// What is found at first, after a look-up of 7, after one of 8 that failed, and after one of 9, which takes the place
/// of that.
const LOOKS: &str = "\
Err(Upstream(Busy)), Err(Upstream(Busy)), Err(Upstream(Busy))
Ok(Ids { receipt: 1, seen: 7 }), Err(Upstream(Busy)), Err(Upstream(Busy))
Ok(Ids { receipt: 1, seen: 7 }), Err(Full), Err(Upstream(Busy))
Ok(Ids { receipt: 1, seen: 7 }), Err(Upstream(Busy)), Ok(Ids { receipt: 1, seen: 9 })
";

/// Returns what is found at first and after each look-up.
fn looks_in_turn<R: Wait>(
    rt: &R,
    schemas: &UpstreamSchemas<'_, ListedUpstream>,
    upstream: &ListedUpstream,
    looked: &mut Looked<'_, '_, ListedUpstream>,
) -> Result<String, AllocError>
    requires { looked.old.names ≡ schemas.now }
{
    let mut text = String::new(schemas.alloc());
    push_looks(&mut text, looked)?;
    look(rt, schemas, upstream, looked, 7);
    push_looks(&mut text, looked)?;
    looked.add(8, Err(Fault::Full));
    push_looks(&mut text, looked)?;
    look(rt, schemas, upstream, looked, 9);
    push_looks(&mut text, looked)?;
    Ok(text)
}

/// Returns what is found at first and after each look-up, of a registry that was not asked yet.
fn looks_found<R: Wait>(rt: &R, alloc: Global) -> Result<String, AllocError> {
    let registry = SharedRegistry::new(alloc)?;
    let schemas = UpstreamSchemas::new(rt, alloc, &registry, place(alloc)?)?;
    let upstream = ListedUpstream::new(alloc, EXCHANGES);
    let mut looked = Looked::new(&schemas);
    looks_in_turn(rt, &schemas, &upstream, &mut looked)
}

#[test]
fn each_look_up_is_found_by_its_id(rt: HostRuntime) -> Result<(), AllocError> {
    same(&rt, &looks_found(&rt, rt.alloc())?, LOOKS);
    Ok(())
}

/// The bytes of a message, and the writer that it names.
const WRITERS: [(&[u8], Option<u32>); 5] = [
    (b"\x00\x00\x00\x00\x07x", Some(7)),
    (b"\x00\x00\x00\x00\x07", Some(7)),
    (b"\x00\xff\xff\xff\xff", Some(4_294_967_295)),
    (b"\x01\x00\x00\x00\x07x", None),
    (b"\x00\x00\x00\x07", None),
];

/// Returns what a message of these bytes needs for the reader 9.
fn needed_for(alloc: Global, bytes: &[u8]) -> Result<Needed, AllocError> {
    let message = Message::of(alloc, bytes)?;
    Ok(needed_by(&Ok(Request::Transcoding { reader: 9, message })))
}

/// Returns whether each message needs the reader and the writer that it names.
fn messages_need_both(alloc: Global) -> Result<bool, AllocError> {
    let mut right = true;
    for (bytes, writer) in WRITERS {
        let wanted = Needed {
            reader: Some(9),
            writer,
        };
        right &= needed_for(alloc, bytes)? == wanted;
    }
    Ok(right)
}

#[test]
fn a_message_needs_its_reader_and_its_writer(rt: HostRuntime) -> Result<(), AllocError> {
    assert!(rt; messages_need_both(rt.alloc())?);
    Ok(())
}

/// Returns what a registration needs.
fn needed_to_register(alloc: Global) -> Result<Needed, AllocError> {
    let subject = String::from_str(alloc, "s")?;
    let text = String::from_str(alloc, "\"int\"")?;
    Ok(needed_by(&Ok(Request::Registration { subject, text })))
}

/// Returns whether other requests need what they show.
fn others_need_what_they_show(alloc: Global) -> Result<bool, AllocError> {
    let nothing = Needed {
        reader: None,
        writer: None,
    };
    let seven = Needed {
        reader: Some(7),
        writer: None,
    };
    let mut right = needed_to_register(alloc)? == nothing;
    right &= needed_by(&Ok(Request::Schema { id: 7 })) == seven;
    right &= needed_by(&Ok(Request::Command(Command::Subjects))) == nothing;
    right &= needed_by(&Err(Fault::NoRoute)) == nothing;
    Ok(right)
}

#[test]
fn other_requests_need_what_they_show(rt: HostRuntime) -> Result<(), AllocError> {
    assert!(rt; others_need_what_they_show(rt.alloc())?);
    Ok(())
}
