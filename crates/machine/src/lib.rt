//! Machine.
//!
//! The machine: rows of the instruction table, taken one by one or in slices; the program of a pair of schemas beside
//! them, runs of programs on bytes, and payloads transcoded by the program of their pair.
#![tactic(auto)]

mod blocks;
mod contents;
mod feed;
mod laws;
mod machine;
mod numbers;
mod pair;
mod positions;
mod records;
mod run;
mod slice;
mod step;
mod transcoder;
mod transcoding;
mod views;

pub use laws::machines_go_on_with_more_input;
pub use machine::{EndView, Machine};
pub use machine_plan::PlannedProgram;
pub use machine_store::{BufferAt, Content, FrameView};
pub use pair::PairProgram;
pub use resolver::{Outcome, TranscodeError};
pub use run::Run;
pub use slice::{Slice, Why};
pub use step::Step;
pub use transcoder::{Transcoder, TranscodingRoom};
pub use transcoding::{PairError, transcode};
