//! Tests and bench; run by `rt ci`.
//!
//! Tests of the crates that keep commands and schemas in files: `line_journal`, `registry_store`, `journal_file` and
//! `store_commands`, over bytes, over files in memory, and over real files whose disk stops.
#![tactic(auto)]

#[cfg(test)]
mod commands;
#[cfg(test)]
mod disks;
#[cfg(test)]
mod files;
#[cfg(test)]
mod journal;
#[cfg(test)]
mod same;
#[cfg(test)]
mod store;
#[cfg(test)]
mod upstream;
