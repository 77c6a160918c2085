//! Tests and bench; run by `rt ci`.
//!
//! Tests of `avro_bytes`, `avro_schema`, `avro_datum` and `resolver`, in a crate of their own, so that the libraries
//! are proved once.
#![tactic(auto)]

#[cfg(test)]
mod again;
#[cfg(test)]
mod asked;
#[cfg(test)]
mod bytes_tests;
#[cfg(test)]
mod lines;
#[cfg(test)]
mod pair_tests;
#[cfg(test)]
mod repeated;
#[cfg(test)]
mod rows;
#[cfg(test)]
mod same;
#[cfg(test)]
mod schema_rows;
#[cfg(test)]
mod schema_tests;
