//! Tests and bench; run by `rt ci`.
//!
//! Tests of `program_compiler`, `machine_plan`, `machine` and `commands` for what no row of
//! `worked_rows` can show, in one crate over them, so that each library is proved once.
#![tactic(auto)]

#[cfg(test)]
mod again;
#[cfg(test)]
mod device_tests;
#[cfg(test)]
mod devices;
#[cfg(test)]
mod limit_tests;
#[cfg(test)]
mod pair_tests;
#[cfg(test)]
mod plan_rows;
#[cfg(test)]
mod plan_schemas;
#[cfg(test)]
mod plan_tests;
#[cfg(test)]
mod replay_tests;
#[cfg(test)]
mod rows;
#[cfg(test)]
mod run_tests;
#[cfg(test)]
mod text_tests;
#[cfg(test)]
mod words;
