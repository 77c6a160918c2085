//! Registry.
//!
//! Schemas under ids, and the versions of subjects (Confluent Schema Registry API, "Subjects", "Compatibility").
#![tactic(auto)]

mod candidate;
mod command;
mod command_keeper;
mod compatible;
mod decision;
mod history;
mod keeper;
mod kept_receipt;
mod kept_registry;
mod known_version;
mod laws;
mod level;
mod limits;
mod registry;
mod reply;
mod requirement;
mod room;
mod schemas;
mod shared;
mod subject;

pub use command::{Command, Version};
pub use keeper::{KeepFault, Keeper};
pub use kept_receipt::KeptReceipt;
pub use kept_registry::{Aftermath, KeptRegistry, StartFault, Started};
pub use laws::{
    an_id_names_one_schema, kept_commands_are_accepted_again, kept_commands_make_the_registry,
    memory_is_no_bad_schema,
};
pub use level::{Level, parse_level};
pub use limits::{
    LONGEST_SUBJECT, MOST_LEVELS, MOST_SCHEMAS, MOST_SUBJECTS, MOST_VERSION, limits_are_these,
};
pub use registry::{Progress, Registry, ReplayFault, UnreplayedLine, Unwatched};
pub use reply::Reply;
pub use shared::{Receipt, Registered, SharedRegistry};
pub use spec_registry::Refusal;
pub use subject::{is_subject, is_version};
