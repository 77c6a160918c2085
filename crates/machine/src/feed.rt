//! What a row is taken over.

use isa::Program;

/// What a row is taken over: a program, and the bytes of its input that are there. If `ended`, these are all bytes of
/// the input.
#[derive(Clone, Copy)]
pub(crate) struct Feed<'a> {
    pub(crate) program: &'a Program,
    pub(crate) input: &'a [u8],
    pub(crate) ended: bool,
}
