//! Tests and bench; run by `rt ci`.
//!
//! Tests of `session_pool` and `program_cache`, in one crate over both, so that each library is proved once.
#![tactic(auto)]

#[cfg(test)]
mod again;
#[cfg(test)]
mod apart;
#[cfg(test)]
mod cache;
#[cfg(test)]
mod courses;
#[cfg(test)]
mod gates;
#[cfg(test)]
mod jobs;
#[cfg(test)]
mod memory;
#[cfg(test)]
mod replies;
#[cfg(test)]
mod rows;
#[cfg(test)]
mod same;
#[cfg(test)]
mod schemas;
#[cfg(test)]
mod seats;
#[cfg(test)]
mod slots;
#[cfg(test)]
mod stops;
#[cfg(test)]
mod threads;
#[cfg(test)]
mod trials;
#[cfg(test)]
mod waiting;
