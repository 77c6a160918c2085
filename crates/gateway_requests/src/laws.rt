//! The law of codes. It does nothing when it runs.

ghost use Rattle.gateway_requests.specs.Fault.{CodesBeginWithTheirStatus};

/// The law that the code of each fault is its status, or the status followed by two digits.
pub fn codes_begin_with_their_status()
    ensures { CodesBeginWithTheirStatus }
{}
