//! The routes of the service.

/// What a path names.
#[derive(Clone, Copy, Debug, PartialEq, Eq, Drop)]
pub enum Route {
    /// All subjects.
    Subjects,
    /// One subject.
    Subject,
    /// The versions of a subject.
    Versions,
    /// One version of a subject.
    Version,
    /// The schema under an id.
    Schema,
    /// Whether a schema may follow a version of a subject.
    Compatibility,
    /// The level that holds where a subject has none of its own.
    Config,
    /// The level of a subject.
    SubjectConfig,
    /// The transcoding to the schema under an id.
    Transcode,
}
