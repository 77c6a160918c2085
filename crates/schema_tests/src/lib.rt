//! Tests and bench; run by `rt ci`.
//!
//! Tests of `avro_schema_paths`, `avro_schema_faults`, `schema_check`, `schema_explain` and `schema_report`, in a crate
//! of their own, so that proving a library proves no test.
#![tactic(auto)]

#[cfg(test)]
mod check;
#[cfg(test)]
mod explain;
#[cfg(test)]
mod faults;
#[cfg(test)]
mod paths;
#[cfg(test)]
mod report;
