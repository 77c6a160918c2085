//! Edge: C.
//!
//! What a program in another language holds: a transcoder, or none. Its calls, what each reports by numbers, and a box
//! as its pointer, which can lie where no box can.
#![tactic(auto)]

mod box_pointer;
mod handle;
mod held;

pub use box_pointer::BoxPointer;
pub use handle::{Handle, handles_can_be_sent};
pub use held::Held;
