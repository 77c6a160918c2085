//! Events, one after another.

ghost use Rattle.std.specs.Prelude.{◌≡◌, [], ℕ, IfOk, OnOk, length, map};
ghost use Rattle.session_core.specs.Ending.{SessionEndsWithOutcome};
ghost use Rattle.session_core.specs.Event.{event_of};
ghost use Rattle.spec_sessions.specs.Happening.{Happened};
ghost use Rattle.session_core.specs.Happening.{steps_of};
ghost use Rattle.spec_sessions.specs.Isolation.{AreTheirOwn};
ghost use Rattle.spec_sessions.specs.World.{no_world};

use crate::event::Event;
use crate::laws::sessions_are_their_own;
use crate::programs::Programs;
use crate::world::World;
use spec_sessions::EventReply;
use std::alloc::{AllocError, Global};

/// Applies events to a world, one after another, and appends the reply to each to `replies`.
fn take_events<'p, P: Programs>(
    programs: &'p P,
    events: &[Event],
    world: &mut World<'p>,
    replies: &mut Vec<EventReply>,
) -> Result<(), AllocError>
    requires { replies.old.items ≡ [] }
    ensures many { OnOk result (length replies.new.items ≡ length events.now) }
    ensures happened { OnOk result
        (Happened (steps_of (map event_of events.now) replies.new.items) world.old world.new) }
{
    for event in events {
        let reply = world.event(programs, event);
        replies.push(reply)?;
    }
    Ok(())
}

impl<'p> World<'p> {
    /// Returns the world after events, one after another, with a reply to each.
    ///
    /// A session's machine is its pair's program, run alone on its own bytes for as many rows as it counts, and ends
    /// with their outcome; and each session is what its own accepted acts make of it since it began. `Err` where a
    /// reply found no memory.
    pub fn run_events<P: Programs>(
        alloc: Global,
        programs: &'p P,
        events: &[Event],
    ) -> Result<(World<'p>, Vec<EventReply>), AllocError>
        ensures many { IfOk result (λ r. length r.1.items ≡ length events.now) }
        ensures happened { IfOk result (λ r.
            Happened (steps_of (map event_of events.now) r.1.items) no_world r.0) }
        ensures ends { IfOk result (λ r. (session : ℕ) → SessionEndsWithOutcome r.0 session) }
        ensures own { IfOk result (λ r. AreTheirOwn (steps_of (map event_of events.now) r.1.items) r.0) }
    {
        sessions_are_their_own(); // law
        let mut world = World::new(alloc);
        let mut replies = Vec::new(alloc);
        take_events(programs, events, &mut world, &mut replies)?;
        world.sessions_end_with_their_outcomes(); // law
        Ok((world, replies))
    }
}
