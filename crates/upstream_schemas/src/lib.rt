//! Registry.
//!
//! The schemas that the ids of an upstream registry name: each is asked of that registry once, and then held for good,
//! under an id of this process's own registry, by which programs and sessions go.
#![tactic(auto)]

mod cells;
mod found;
mod hearing;
mod held;
mod known;
mod limits;
mod schemas;
mod upstream;

pub use found::FoundSchema;
pub use held::{Held, Named};
pub use limits::MOST_IDS;
pub use schemas::UpstreamSchemas;
pub use upstream::{ExchangeFault, Upstream};
