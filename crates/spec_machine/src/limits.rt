//! The limits of programs, of images and of what programs run on, all of which are this project's own.

/// How many instructions a program may have.
pub const MOST_INSTRS: usize = 262_144;

/// How many constants, maps, jump tables or misses a program may have.
pub const MOST_TABLES: usize = 65_536;

/// How many entries a map or a jump table may have.
pub const MOST_ENTRIES: usize = 4_096;

/// How many bytes all constants of a program may have.
pub const MOST_CONSTANT_BYTES: usize = 1_048_576;

/// How many bytes a fixed may have that a program moves.
pub const MOST_FIXED: usize = 1_048_576;

/// How many symbols an enum may have: positions are below it.
pub const MOST_SYMBOLS: usize = 4_096;

/// How many slots a record may have that a program writes.
pub const MOST_SLOTS: usize = 1_024;

/// How many nodes a schema may have: the nodes of a miss are below it.
pub const MOST_NODES: usize = 1_024;

/// How many calls may be open.
pub const MOST_CALLS: usize = 1_024;

/// How many bytes of a content one row moves at most.
pub const MOST_CHUNK: usize = 64;

/// How many instructions an image of version 1 may have.
pub const MOST_INSTRS_OF_ONE: usize = 65_536;
