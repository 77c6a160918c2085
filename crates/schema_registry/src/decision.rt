//! What becomes of a registration.

/// What becomes of a schema that is to be a version of a subject.
#[derive(Clone, Copy, Debug, PartialEq, Eq)]
pub(crate) enum Decision {
    /// A version of the subject has it, under this id.
    Known(u32),
    /// It becomes the next version of the subject, under this id.
    New(u32),
}
