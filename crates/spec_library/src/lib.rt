//! What is promised of the library.
//!
//! What a call reports: definitions in `specs/`, and here the plain types that they speak of.
#![tactic(auto)]

mod report;

pub use report::{Ids, PayloadReport, Report};
