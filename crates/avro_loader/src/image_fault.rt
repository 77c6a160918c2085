//! What keeps bytes from being an image, the first thing in reading order.

use thiserror::Error;

/// The first thing in reading order that keeps bytes from being an image. What is out of range is reported after all
/// else.
#[derive(Clone, Copy, Debug, PartialEq, Eq, Error)]
pub enum ImageFault {
    #[error("the bytes do not begin as an image")]
    BadMagic,
    #[error("there is no such version")]
    BadVersion,
    #[error("the image is cut")]
    Truncated,
    /// A code, a tag or a kind of a miss that there is not, or a constant of no bytes.
    #[error("the byte at {0} has no meaning")]
    BadByte(usize),
    #[error("the count or length at {0} passes its limit")]
    TooLarge(usize),
    #[error("there is no instruction")]
    NoCode,
    #[error("bytes stand after the image, at {0}")]
    Trailing(usize),
    #[error("what stands at {0} is out of range")]
    OutOfRange(usize),
}
