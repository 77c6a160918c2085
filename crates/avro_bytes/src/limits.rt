//! The limits of this crate, each a number of its own (`limits_are_these` says which).

pub use spec_avro::{
    INT_BYTES, INT_LAST, LONG_BYTES, LONG_LAST, MOST_CONTENT, MOST_DEPTH, MOST_OUTPUT,
    MOST_PAYLOAD, MOST_UNITS,
};
