//! Events that happen to a new world in one call.

use crate::again::row_for;
use crate::same::same;
use machine::EndView;
use session_core::{Act, Event, EventRefusal, EventReply, PublishError, World};
use std::alloc::{AllocError, Global};
use std::test::Fail;

/// Returns the event that registers a text.
fn registration(alloc: Global, subject: &str, text: &str) -> Result<Event, AllocError> {
    Ok(Event::Register {
        subject: String::from_str(alloc, subject)?,
        text: String::from_str(alloc, text)?,
    })
}

/// Returns the events that register two schemas, publish the pair of the first with itself and a second pair, and
/// begin a session of the first on a payload of one byte.
fn events(alloc: Global) -> Result<Vec<Event>, AllocError> {
    let bytes = Vec::from_slice(alloc, &[2])?;
    let first = registration(alloc, "s", "\"int\"")?;
    let second = registration(alloc, "u", "\"long\"")?;
    let (writer, session, worker, rows) = (1, 0, 0, 9);
    Ok(vec![in alloc;
        first,
        second,
        Event::Publish { writer, reader: 1 },
        Event::Publish { writer, reader: 2 },
        Event::Begin { writer, reader: 1 },
        Event::On {
            session,
            act: Act::Piece(bytes)
        },
        Event::On {
            session,
            act: Act::Finish
        },
        Event::On {
            session,
            act: Act::Slice { worker, rows }
        },
    ]?)
}

/// What is replied to them where one cell holds one pair.
const REPLIES: [EventReply; 8] = [
    EventReply::Id(1),
    EventReply::Id(2),
    EventReply::Done,
    EventReply::Refused(EventRefusal::OfPublication(PublishError::Clash)),
    EventReply::SessionIs(0),
    EventReply::Done,
    EventReply::Done,
    EventReply::Rows(2),
];

/// Returns whether the first session of a world has ended with these bytes.
fn is_done(world: &World, bytes: &[u8]) -> bool {
    match world.session(0).and_then(|session| session.machine().end()) {
        Some(EndView::Done(output)) => output == bytes,
        _ => false,
    }
}

#[test]
fn events_go_in_one_call(rt: HostRuntime) -> Result<(), Fail> {
    let programs = row_for(rt.alloc(), 1)?;
    let events = events(rt.alloc())?;
    let (world, replies) = World::run_events(rt.alloc(), &programs, &events)?;
    same(&rt, replies.as_slice(), REPLIES.as_slice());
    same(&rt, is_done(&world, &[2]), true);
    Ok(())
}
