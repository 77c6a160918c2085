//! The numbers by which a report crosses to another language.

ghost use Rattle.std.specs.Prelude.{◌≡◌};
ghost use Rattle.embedding.specs.Numbers.{bare, envelope_code, malformed_code, numbers_of, payload_numbers};

use crate::status::Status;
use avro_bytes::MalformedKind;
use spec_library::{PayloadReport, Report};
use wire_frames::EnvelopeError;

/// The numbers that represent a report. A part that a report does not have is 0.
#[repr(C)]
#[derive(Clone, Copy, Debug, PartialEq, Eq, Drop)]
pub struct ReportNumbers {
    pub status: u32,
    pub kind: u32,
    pub length: usize,
    pub offset: usize,
    pub writer_node: usize,
    pub reader_node: usize,
    pub writer_id: u32,
}

/// Returns the number of a kind of malformed bytes.
fn malformed_code(kind: MalformedKind) -> u32
    ensures { result ≡ malformed_code kind }
{
    match kind {
        MalformedKind::BadNumber => 1,
        MalformedKind::BadBoolean => 2,
        MalformedKind::BadLength => 3,
        MalformedKind::BadText => 4,
        MalformedKind::BadEnum => 5,
        MalformedKind::BadBranch => 6,
        MalformedKind::BadBlock => 7,
        MalformedKind::TooDeep => 8,
        MalformedKind::TooMany => 9,
        MalformedKind::Truncated => 10,
        MalformedKind::Trailing => 11,
    }
}

/// Returns the number of a reason why bytes are no message.
fn envelope_code(error: EnvelopeError) -> u32
    ensures { result ≡ envelope_code error }
{
    match error {
        EnvelopeError::ShortEnvelope => 1,
        EnvelopeError::BadMagic => 2,
    }
}

impl ReportNumbers {
    /// Returns the numbers of a status alone.
    fn bare(status: Status) -> ReportNumbers
        ensures { result ≡ bare status }
    {
        ReportNumbers {
            status: status.code(),
            kind: 0,
            length: 0,
            offset: 0,
            writer_node: 0,
            reader_node: 0,
            writer_id: 0,
        }
    }
}

/// Returns the numbers that represent the report of a payload.
fn payload_numbers(report: PayloadReport) -> ReportNumbers
    ensures { result ≡ payload_numbers report }
{
    match report {
        PayloadReport::Done { length } => ReportNumbers {
            length,
            ..ReportNumbers::bare(Status::Done)
        },
        PayloadReport::RoomTooSmall { length } => ReportNumbers {
            length,
            ..ReportNumbers::bare(Status::RoomTooSmall)
        },
        PayloadReport::Mismatch(mismatch) => ReportNumbers {
            kind: u32::from(mismatch.kind.code()),
            writer_node: mismatch.writer_node,
            reader_node: mismatch.reader_node,
            ..ReportNumbers::bare(Status::Mismatch)
        },
        PayloadReport::Malformed { kind, at } => ReportNumbers {
            kind: malformed_code(kind),
            offset: at,
            ..ReportNumbers::bare(Status::Malformed)
        },
        PayloadReport::OutputTooLarge => ReportNumbers::bare(Status::OutputTooLarge),
        PayloadReport::PayloadTooLarge => ReportNumbers::bare(Status::PayloadTooLarge),
        PayloadReport::NoMemory => ReportNumbers::bare(Status::NoMemory),
    }
}

/// Returns the numbers that represent a report.
pub fn numbers_of(report: Report) -> ReportNumbers
    ensures { result ≡ numbers_of report }
{
    match report {
        Report::Payload(report) => payload_numbers(report),
        Report::Closed => ReportNumbers::bare(Status::Closed),
        Report::BadEnvelope(error) => ReportNumbers {
            kind: envelope_code(error),
            ..ReportNumbers::bare(Status::BadEnvelope)
        },
        Report::OtherWriter { id } => ReportNumbers {
            writer_id: id,
            ..ReportNumbers::bare(Status::OtherWriter)
        },
        Report::OutOfRange => ReportNumbers::bare(Status::OutOfRange),
    }
}
