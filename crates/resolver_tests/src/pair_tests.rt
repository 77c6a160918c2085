//! Payloads of every kind of schema and pairs of schemas of all kinds of types, with the answers of worked examples,
//! and each fault from outside data.

use crate::asked::{Asked, assert_rows};
use crate::rows::{
    DATA, FULL, LONGEST, NESTED, OUTCOMES, PARTNERS, PLACES, RESOLVED, SAFETY, SKIPPED, TOO_LONG,
};
use avro_bytes::MOST_UNITS;
use std::alloc::AllocError;

#[test]
fn payloads_are_read_and_written(rt: HostRuntime) -> Result<(), AllocError> {
    assert_rows(&rt, Some(Asked::Payload), DATA)
}

#[test]
fn payloads_at_the_limits(rt: HostRuntime) -> Result<(), AllocError> {
    assert_rows(&rt, Some(Asked::Alike), NESTED)?;
    assert_rows(&rt, Some(Asked::Skipped { units: 0 }), SKIPPED)?;
    assert_rows(&rt, Some(Asked::Skipped { units: MOST_UNITS }), FULL)?;
    assert_rows(&rt, Some(Asked::Longest), LONGEST)?;
    assert_rows(&rt, Some(Asked::Outcome), TOO_LONG)?;
    assert_rows(&rt, Some(Asked::Order), PARTNERS)
}

#[test]
fn outcomes_of_pairs(rt: HostRuntime) -> Result<(), AllocError> {
    assert_rows(&rt, Some(Asked::Outcome), OUTCOMES)
}

#[test]
fn what_readers_make_of_data(rt: HostRuntime) -> Result<(), AllocError> {
    assert_rows(&rt, Some(Asked::Safety), SAFETY)?;
    assert_rows(&rt, Some(Asked::Resolved), RESOLVED)?;
    assert_rows(&rt, Some(Asked::Destination), PLACES)
}
