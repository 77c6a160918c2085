//! Devices that fail.

use crate::devices::{Drip, NEVER, Trickle};
use commands::{RunError, Status, Verb, run};
use std::alloc::Global;
use std::process::Abort;

/// Two payloads of a long.
const EXAMPLE: &[u8] = b"\"long\"\n\"long\"\n02\n7f\n";

const EXAMPLE_OUTPUT: &[u8] = b"done 02\ndone 7f\n";

/// Asserts that a run that is read by a device ends so and writes an output. Returns how often the device is called.
fn assert_reads(
    rt: &(impl Abort + AllocGlobal),
    fails_at: usize,
    end: Result<Status, RunError>,
    output: &[u8],
) -> usize {
    let mut reader = Trickle::new(EXAMPLE, fails_at);
    let mut written = Vec::new(rt.alloc());
    let done = run(rt.alloc(), &Verb::Transcode, &mut reader, &mut written);
    assert!(rt;
        done == end && written.as_slice() == output,
        "at {fails_at}"
    );
    reader.calls
}

#[test]
fn fails_at_each_read_in_turn(rt: HostRuntime) {
    let calls = assert_reads(&rt, NEVER, Ok(Status::Answered), EXAMPLE_OUTPUT);
    for call in 0..calls {
        if call % 3 != 1 {
            assert_reads(&rt, call, Err(RunError::Read), b"");
        }
    }
}

/// Returns how a run ends that is written to a device.
fn drips(alloc: Global, writer: &mut Drip) -> Result<Status, RunError> {
    let mut reader = EXAMPLE;
    run(alloc, &Verb::Transcode, &mut reader, writer)
}

/// Returns whether a device took all, and was flushed.
fn has_all(writer: &Drip) -> bool {
    writer.taken.as_slice() == EXAMPLE_OUTPUT && writer.passed_on == EXAMPLE_OUTPUT.len()
}

/// Asserts that a run to a device that never fails writes all. Returns how often the device is called.
fn assert_writes_all(rt: &(impl Abort + AllocGlobal)) -> usize {
    let mut writer = Drip::new(rt.alloc(), NEVER);
    let done = drips(rt.alloc(), &mut writer);
    assert!(rt; done == Ok(Status::Answered) && has_all(&writer));
    writer.calls
}

/// Returns whether a device took what comes before a call, at which it failed, and nothing was flushed.
fn is_cut(writer: &Drip, call: usize) -> bool {
    let interrupted = call.wrapping_add(1) / 3;
    writer.passed_on == 0
        && EXAMPLE_OUTPUT.starts_with(&writer.taken)
        && writer.taken.len() + interrupted == call
}

/// Asserts that a run to a device that fails at a call ends so.
fn assert_fails_at(rt: &(impl Abort + AllocGlobal), call: usize) {
    let mut writer = Drip::new(rt.alloc(), call);
    let done = drips(rt.alloc(), &mut writer);
    assert!(rt;
        done == Err(RunError::Write) && is_cut(&writer, call),
        "at {call}"
    );
}

#[test]
fn fails_at_each_write_in_turn(rt: HostRuntime) {
    let calls = assert_writes_all(&rt);
    for call in 0..calls {
        assert_fails_at(&rt, call);
    }
}

#[test]
fn a_run_that_may_take_no_row_takes_none(rt: HostRuntime) {
    let mut reader: &[u8] = b"avro program 1\n0 JUMP 0\nend\n\n";
    let mut written = Vec::new(rt.alloc());
    let verb = Verb::Run { steps: 0 };
    let done = run(rt.alloc(), &verb, &mut reader, &mut written);
    assert!(rt;
        done == Ok(Status::Answered) && written.as_slice() == b"running count 0\n".as_slice()
    );
}
