//! A caller of `session_core`.

ghost use Rattle.std.specs.Prelude.{IfSome};
ghost use Rattle.spec_sessions.specs.Event.{Begin, Publish};
ghost use Rattle.spec_sessions.specs.Happening.{Happens};
ghost use Rattle.spec_sessions.specs.World.{World as Seen};
ghost use Rattle.spec_sessions.specs.declared.reply.EventReply.TheVariants.{Done, SessionIs};

use session_core::{Event, EventReply, Programs, World};

/// Publishes a pair of registered schemas, by their ids, and begins a session of it. Returns the session's number. None
/// where the world refuses one of the two: an id without a schema, a program that passes a limit, want of memory.
pub fn begin_session<'p, P: Programs>(
    world: &mut World<'p>,
    programs: &'p P,
    writer: u32,
    reader: u32,
) -> Option<usize>
    ensures { IfSome result (λ session. (published : Seen) × Happens (Publish writer reader) Done world.old published
        × Happens (Begin writer reader) (SessionIs session) published world.new) }
{
    let EventReply::Done = world.event(programs, &Event::Publish { writer, reader }) else {
        return None;
    };
    match world.event(programs, &Event::Begin { writer, reader }) {
        EventReply::SessionIs(session) => Some(session),
        _ => None,
    }
}
