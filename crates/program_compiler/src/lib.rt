//! Programs.
//!
//! The compiler: from a pair of schemas to their program. The code of each section that is called for is made first,
//! its numbers and addresses after it.
#![tactic(auto)]

mod addresses;
mod assembling;
mod blank;
mod compiling;
mod constants;
mod error;
mod known;
mod linking;
mod maps;
mod members;
mod misses;
mod named_types;
mod routines;
mod schema_pair;
mod skipping;
mod walking;
mod writing;

pub use compiling::compile;
pub use error::CompileError;
pub use walking::{SectionStatements, walk};
