//! Machine.
//!
//! What a run holds: open frames, and buffers whose bytes are in one arena, as lists of segments that are joined
//! without being copied; and parts of rows and slices that know no machine.
#![tactic(auto)]

mod buffers;
mod chunks;
mod ropes;
mod rules;
mod slots;
mod store;
mod text;
mod views;

pub use buffers::{Buffer, Buffers, TargetBuffer};
pub use chunks::{Chunk, Content, chunk_at};
pub use ropes::{Joint, Ropes, Segment};
pub use rules::{Ending, RowCount, Verdict, instr_at, is_spent, spell_around, stops_at};
pub use store::{Frame, Opening, Store};
pub use text::{Carry, TextCheck};
pub use views::{BufferAt, FrameView};
