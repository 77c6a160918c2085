//! Edge: HTTP.
//!
//! Reading the JSON body of a request: of an object the members that count are kept, and nothing of any other value, so
//! that a body takes no more memory than a few times its length.
#![tactic(auto)]

mod error;
mod kept;
mod members;
mod numbers;
mod passing;
mod reading;

pub use error::BodyError;
pub use kept::Kept;
pub use members::Members;
pub use reading::read_members;
