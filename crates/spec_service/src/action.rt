//! What is asked for at a route.

/// What is asked for at a route.
#[derive(Clone, Copy, Debug, PartialEq, Eq)]
pub enum Action {
    ListSubjects,
    Lookup,
    ListVersions,
    Register,
    ShowVersion,
    ShowSchema,
    Check,
    ShowLevel,
    SetLevel,
    ShowSubjectLevel,
    SetSubjectLevel,
    Transcode,
}
