//! Edge: C.
//!
//! A transcoder that owns its pair of schemas, and what is reported to a program that embeds it: of texts, payloads,
//! messages and batches, and by which numbers.
#![tactic(auto)]

mod batch;
mod numbers;
mod opening;
mod owning;
mod status;
mod texts;

pub use batch::BatchItem;
pub use numbers::{ReportNumbers, numbers_of};
pub use opening::{OpenError, TextFault, can_read, open, report_reading};
pub use owning::OwningTranscoder;
pub use spec_library::{Ids, PayloadReport, Report};
pub use status::Status;
pub use texts::{VERSION, write_words};
