//! Which value is held for an id.

/// Which value is held for an id once `hold` has returned.
#[derive(Clone, Copy, PartialEq)]
pub enum HeldValue {
    /// The value that was given to this call.
    Given,
    /// The value of another call, which was first. The value that was given is dropped.
    Earlier,
}
