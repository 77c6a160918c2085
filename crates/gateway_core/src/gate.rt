//! What is asked whether to go on where a call may have to be tried again.

/// Where a gate is asked.
#[derive(Clone, Copy, Debug, PartialEq, Eq)]
pub enum Place {
    /// By a worker, before a turn.
    Turn,
    /// By a caller that waits for a session, before the call is tried again. Where a session is abandoned the answer
    /// is ignored.
    Waiting,
    /// By a worker that holds the session of a slot, before the first row.
    Inside { slot: u32 },
}

/// A gate, which is asked whether to go on.
pub trait Gate {
    ghost use Rattle.std.specs.Prelude.{Bool};
    ghost use Rattle.gateway_core.specs.declared.gate.Place.{Place};

    // What it may say at a place, and what it is afterwards.
    ghost says: { Self → Place → Bool → Self → Type 0 };

    /// Returns whether to go on at a place. It may wait before it returns.
    fn at(&mut self, place: Place) -> bool
        ensures { says self.old place result self.new };
}
