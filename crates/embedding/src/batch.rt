//! Many payloads by one call.

ghost use Rattle.std.specs.Prelude.{◌≡◌, ◌≤◌, ◌<◌, ◌+◌, MatchOption, length, map, take};
ghost use Rattle.embedding.specs.Batch.{IsBatch, IsItem, output_length, payload_of, range_of};

use crate::numbers::{ReportNumbers, numbers_of};
use crate::owning::OwningTranscoder;
use spec_library::{PayloadReport, Report};

/// An item of a batch: where its payload is in a buffer that the items share, where its output begins in a room that
/// they share, and what is reported of it.
#[repr(C)]
#[derive(Clone, Copy, Debug, PartialEq, Eq, Drop)]
pub struct BatchItem {
    pub payload_offset: usize,
    pub payload_length: usize,
    pub output_offset: usize,
    pub report: ReportNumbers,
}

impl BatchItem {
    /// Returns its payload; `None` where that is not within the buffer.
    fn payload<'b>(&self, payloads: &'b [u8]) -> Option<&'b [u8]>
        ensures { MatchOption result (length payloads.now < self.now.payload_offset + self.now.payload_length)
            (λ payload. (self.now.payload_offset + self.now.payload_length ≤ length payloads.now)
            × (payload.now ≡ payload_of payloads.now self.now)) }
    {
        if self.payload_offset > payloads.len() {
            return None;
        }
        let rest = &payloads[self.payload_offset..];
        if self.payload_length > rest.len() {
            return None;
        }
        Some(&rest[..self.payload_length])
    }
}

impl OwningTranscoder {
    /// Writes an item's output to the room from an offset on, where it fits, and what is reported of it to the item.
    /// Returns where the next output begins.
    fn report_item(
        &mut self,
        payloads: &[u8],
        room: &mut [u8],
        at: usize,
        item: &mut BatchItem,
    ) -> usize
        requires { at ≤ length room.old }
        ensures item { IsItem self.old payloads.now room.new at item.new }
        ensures asked { range_of item.new ≡ range_of item.old }
        ensures next { result ≡ at + output_length item.new }
        ensures within { result ≤ length room.new }
        ensures before { take at room.new ≡ take at room.old }
        ensures kept { self.new ≡ self.old }
    {
        let mut next = at;
        let report = match item.payload(payloads) {
            Some(payload) => {
                let report = self.report(&[], payload, &mut room[at..]);
                if let PayloadReport::Done { length } = report {
                    next = at + length;
                }
                Report::Payload(report)
            }
            None => Report::OutOfRange,
        };
        item.output_offset = at;
        item.report = numbers_of(report);
        next
    }

    /// Writes the outputs of a batch into a room one after another, each where what is left of the room has place for
    /// it, and what is reported of each payload to its item.
    pub fn report_batch(&mut self, payloads: &[u8], room: &mut [u8], items: &mut [BatchItem])
        ensures batch { IsBatch self.old payloads.now room.new 0 items.new }
        ensures asked { map range_of items.new ≡ map range_of items.old }
        ensures kept { self.new ≡ self.old }
    {
        let mut at = 0;
        for item in items.iter_mut() {
            at = self.report_item(payloads, room, at, item);
        }
    }
}
