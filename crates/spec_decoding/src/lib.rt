//! What decoding the bytes at an offset gives.
//!
//! The instruction table is defined by it. Definitions in `specs/`, and here the type of a fault.
#![tactic(auto)]

mod fault;

pub use fault::Fault;
