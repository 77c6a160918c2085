//! Tests and bench; over `gateway`, `gateway_core` and `persistent_exchange`.
//!
//! Messages that go through the pool where its slots are taken or a gate says no, workers that run many sessions, and
//! requests that come in parts over a connection that stays.
#![tactic(auto)]

#[cfg(test)]
mod asking;
#[cfg(test)]
mod calling;
#[cfg(test)]
mod gates;
#[cfg(test)]
mod leaving;
#[cfg(test)]
mod memory;
#[cfg(test)]
mod refusals;
#[cfg(test)]
mod replying;
#[cfg(test)]
mod schemas;
#[cfg(test)]
mod seats;
#[cfg(test)]
mod staying;
#[cfg(test)]
mod trials;
#[cfg(test)]
mod waiting;
#[cfg(test)]
mod working;
