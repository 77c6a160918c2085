//! Bytes and data.
//!
//! The parts of Avro's binary encoding, each read, skipped and written on its own (Avro 1.11 Specification,
//! "Binary Encoding"), and what becomes of a payload: the types that every way of transcoding returns, and their limits.
#![tactic(auto)]

mod blob;
mod blocks;
mod boolean;
mod form;
mod laws;
mod length;
mod limits;
mod meter;
mod number;
mod position;
mod put;
mod text;

pub use blob::{Blob, FixedBytes};
pub use blocks::BlockWalk;
pub use boolean::{Bool, read_boolean};
pub use form::{WireForm, read_and_skip};
pub use laws::{
    content_is_a_length_and_a_fixed, limits_are_these, shortest_spelling_is_shortest,
    tight_spelling_is_the_shortest, walks_pass_the_items, walks_stand_at_their_blocks,
    walks_tell_the_first_fault,
};
pub use length::read_length;
pub use limits::{
    INT_BYTES, INT_LAST, LONG_BYTES, LONG_LAST, MOST_CONTENT, MOST_DEPTH, MOST_OUTPUT,
    MOST_PAYLOAD, MOST_UNITS,
};
pub use meter::{Meter, enter_blocks, enter_item, enter_record};
pub use number::{Int, Long, Width, read_int, read_long};
pub use position::{Position, read_position};
pub use put::{long_len, put_long};
pub use spec_avro::{MalformedKind, Mismatch, MismatchKind, Outcome};
pub use spec_decoding::Fault;
pub use text::Text;
