//! All bytes of an answer.

ghost use Rattle.std.specs.Prelude.{◌≡◌, ◌≤◌, ◌++◌, drop, length, take};
ghost use Rattle.spec_service.specs.Head.{head_of};

use crate::content_type::ContentType;
use crate::status::Status;

/// All bytes of an answer, in two pieces: a long body is no copy, but the memory that the answer had it in.
#[derive(Drop)]
pub struct AnswerBytes {
    /// The head, and the first bytes of the body.
    pub front: Vec<u8>,
    /// The other bytes of the body.
    pub rest: Vec<u8>,
    /// The number of bytes of the head.
    pub head: usize,
    pub status: Status,
    pub content_type: ContentType,
    ghost within: { head ≤ length front.items },
    ghost framed: { take head front.items
        ≡ head_of status content_type (length (drop head front.items ++ rest.items)) },
}
