//! Tests and bench; run by `rt ci`.
//!
//! Tests of `isa`, `assembler`, `avro_loader`, `machine` and `debugger`, in a crate of their own, so that the libraries
//! are proved once.
#![tactic(auto)]

#[cfg(test)]
mod again;
#[cfg(test)]
mod ahead_tests;
#[cfg(test)]
mod arena_tests;
#[cfg(test)]
mod asked;
#[cfg(test)]
mod forms;
#[cfg(test)]
mod output_tests;
#[cfg(test)]
mod programs;
#[cfg(test)]
mod row_tests;
#[cfg(test)]
mod rows;
#[cfg(test)]
mod show_tests;
#[cfg(test)]
mod slice_tests;
#[cfg(test)]
mod text_tests;
#[cfg(test)]
mod texts;
