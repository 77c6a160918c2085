//! The laws of events. They do nothing when they run.

ghost use Rattle.spec_sessions.specs.Isolation.{ActsLeadToOne, EventsLeadToOne, SessionsAreTheirOwn};

/// The law that a session is what its own accepted acts make of it since it began, with the same replies, whatever all
/// other events are: registrations, levels, publications, and beginnings and acts of others.
pub fn sessions_are_their_own()
    ensures { SessionsAreTheirOwn }
{}

/// The law that acts on a session, and events of a world, with their replies, lead to one session, and to one world.
pub fn replies_tell_what_happened()
    ensures acts { ActsLeadToOne }
    ensures events { EventsLeadToOne }
{}
