//! What a head asks for.

use crate::action::Action;

/// What a head asks for, and how many bytes its body has.
#[derive(Clone, Copy, Debug, PartialEq, Eq)]
pub struct Chosen {
    pub action: Action,
    pub body_length: usize,
}
