//! Registry.
//!
//! The commands that changed a registry, and the schemas that an upstream registry answered, each as lines of a text
//! file that outlives a crash.
#![tactic(auto)]

mod check;
mod crashing;
mod fault;
mod format;
mod kept_schema;
mod laws;
mod opening;
mod reading;
mod store;
mod store_fault;
mod stored;
mod upstream_fault;
mod upstream_opening;
mod writing;

pub use crashing::Restart;
pub use fault::LineFault;
pub use format::{CHECK_BYTES, CHECK_DIGITS, NEWLINE, SPACE, TEXT_ESCAPES, WORD_ESCAPES};
pub use kept_schema::KeptSchema;
pub use laws::{a_command_is_one_line, a_line_has_at_most_a_mebibyte, a_line_says_one_command};
pub use reading::parse;
pub use store::CommandStore;
pub use store_fault::{OpenFault, StoreFault};
pub use stored::StoredCommand;
pub use upstream_fault::UpstreamStoreFault;
pub use upstream_opening::UpstreamStore;
pub use writing::{level_line, registration_line};
