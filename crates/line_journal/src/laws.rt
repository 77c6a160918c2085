//! The law of changed bytes. It does nothing when it runs.

ghost use Rattle.line_journal.specs.Changes.{ChangedClosedGateIsFound, ChangedOpenGateIsFound};

/// The law that one changed byte of a gate never hides a line of a file at rest: it is damage at that gate, or the file
/// reads as before.
pub fn a_changed_gate_is_found()
    ensures open { ChangedOpenGateIsFound }
    ensures closed { ChangedClosedGateIsFound }
{}
