//! The limits of a registry, which are this project's own but for the greatest version, which is the API's.

/// How many schemas a registry may have.
pub const MOST_SCHEMAS: usize = 4_096;

/// How many subjects may have versions.
pub const MOST_SUBJECTS: usize = 4_096;

/// How many subjects may have a level of their own.
pub const MOST_LEVELS: usize = 4_096;

/// How many bytes the name of a subject may have.
pub const LONGEST_SUBJECT: usize = 255;

/// The greatest number of a version that may be asked for (Confluent Schema Registry API, "Subjects").
pub const MOST_VERSION: u32 = 2_147_483_647;
