//! Which version of a subject is asked for.

/// Which version of a subject is asked for.
#[derive(Clone, Copy, Debug, PartialEq, Eq)]
pub enum Version {
    Latest,
    /// From 1.
    Number(u32),
}
