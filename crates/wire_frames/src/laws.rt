//! The law of messages. It does nothing when it runs.

ghost use Rattle.wire_frames.specs.OneForm.{OneId, OnePayload};

/// The law that a message is the envelope of one id and one payload alone.
pub fn envelopes_have_one_id_and_payload()
    ensures id { OneId }
    ensures payload { OnePayload }
{}
