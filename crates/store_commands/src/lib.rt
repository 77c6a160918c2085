//! Edge: lines and commands.
//!
//! The registry of a file: it is opened for a service, its commands are printed as lines of `replay`, and it is made of
//! such lines. And the schemas of an upstream registry in a file, for a service beside it.
#![tactic(auto)]

mod exporting;
mod importing;
mod importing_lines;
mod listing;
mod opening;
mod progress;
mod refusal;

pub use exporting::{ExportFault, export};
pub use importing::{ImportFault, import};
pub use importing_lines::{LineTrouble, UntakenLine, import_lines};
pub use opening::{FileSchemas, FileStore, open_registry, open_schemas};
pub use progress::TimedProgress;
pub use refusal::{FileTrouble, StoreRefusal};
