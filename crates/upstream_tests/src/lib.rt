//! Tests and bench; run by `rt ci`.
//!
//! Tests of an upstream registry beside the service: its URL, the questions and the answers, the schemas that are held,
//! the queue and the threads that ask, and which schemas a request needs. `upstream_answers`,
//! `upstream_schemas`, `upstream_fetching` and `gateway_upstream` are below, so that each is proved once.
#![tactic(auto)]

#[cfg(test)]
mod answers;
#[cfg(test)]
mod fetching;
#[cfg(test)]
mod listed_upstream;
#[cfg(test)]
mod needs;
#[cfg(test)]
mod schemas;
#[cfg(test)]
mod texts;
#[cfg(test)]
mod urls;
