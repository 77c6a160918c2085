//! Tests and bench; run by `rt ci`.
//!
//! Tests of `session_core` and of `schema_registry` for what no row of `worked_rows` can show, in one crate over both,
//! so that each library is proved once.
#![tactic(auto)]

#[cfg(test)]
mod again;
#[cfg(test)]
mod pair_row_tests;
#[cfg(test)]
mod registry;
#[cfg(test)]
mod same;
#[cfg(test)]
mod session_tests;
#[cfg(test)]
mod texts;
#[cfg(test)]
mod world_tests;
