//! What a program in another language holds, and its calls.

ghost use Rattle.std.specs.Prelude.{◌≡◌, Some, None, is_some, map};
ghost use Rattle.std.specs.Option.{option_map};
ghost use Rattle.embedding.specs.Batch.{ReportsBatch, range_of};
ghost use Rattle.embedding.specs.Opening.{TellsOpening};
ghost use Rattle.spec_library.specs.Report.{ReportsMessage, ReportsPayload};
ghost use Rattle.embedding.specs.Report.{Tells};

use crate::BoxPointer;
use crate::held::Held;
use embedding::{
    BatchItem, Ids, OpenError, OwningTranscoder, Report, ReportNumbers, Status, numbers_of, open,
};
use std::alloc::Global;

/// Takes a value that another thread may use next.
fn needs_send<T: Send>() {}

/// The law that another thread may use a handle next.
pub fn handles_can_be_sent() {
    needs_send::<Handle>();
}

/// A transcoder that is open on a pair, or none. Whoever holds it makes it of bytes that are all 0, and then it is
/// closed. A clause reads the pair that it is open on, if any, as `held.value`.
#[repr(C)]
pub struct Handle {
    pub held: Held,
    is_open: bool,
    ghost agrees: { is_open ≡ is_some held.value },
}

impl Handle {
    /// Returns a handle that is closed.
    pub fn closed() -> Handle
        ensures { result.held.value ≡ None }
    {
        Handle {
            held: Held::none(),
            is_open: false,
        }
    }

    /// Returns a handle that is open on a transcoder's pair.
    fn of(transcoder: Box<OwningTranscoder>) -> Handle
        ensures { result.held.value ≡ Some transcoder.value }
    {
        Handle {
            held: Held::of_pointer(BoxPointer::of(transcoder)),
            is_open: true,
        }
    }

    /// Returns the transcoder of its pair; `None` where it is closed.
    fn into_box(self, alloc: Global) -> Option<Box<OwningTranscoder>>
        ensures { option_map (λ b. b.value) result ≡ self.held.value }
    {
        let Handle { held, is_open } = self;
        if is_open {
            Some(held.into_pointer(alloc).into_box())
        } else {
            held.discard();
            None
        }
    }

    /// Closes it, and returns the transcoder that it was open on; `None` where it was closed.
    fn take(&mut self, alloc: Global) -> Option<Box<OwningTranscoder>>
        ensures taken { option_map (λ b. b.value) result ≡ self.old.held.value }
        ensures left { self.new.held.value ≡ None }
    {
        std::mem::replace(self, Handle::closed()).into_box(alloc)
    }

    /// Opens it on a transcoder's pair.
    fn put(&mut self, transcoder: Box<OwningTranscoder>)
        requires { self.old.held.value ≡ None }
        ensures { self.new.held.value ≡ Some transcoder.value }
    {
        let Handle { held, is_open: _ } = std::mem::replace(self, Handle::of(transcoder));
        held.discard();
    }

    /// Closes it, and frees what its transcoder held.
    pub fn close(&mut self, alloc: Global)
        ensures { self.new.held.value ≡ None }
    {
        drop(self.take(alloc));
    }

    /// Discards a handle that is closed.
    pub fn discard(self)
        requires { self.held.value ≡ None }
    {
        let Handle { held, is_open: _ } = self;
        held.discard();
    }

    /// Opens it on the pair that two texts declare, after closing it. Returns the number of the status, and writes the
    /// number of a text's fault to `fault`, 0 where there is none.
    pub fn open(&mut self, alloc: Global, writer: &[u8], reader: &[u8], fault: &mut u32) -> u32
        ensures { TellsOpening writer.now reader.now self.new.held.value result fault.new }
    {
        self.close(alloc);
        let error = match open(alloc, writer, reader) {
            Ok(transcoder) => match Box::new(alloc, transcoder) {
                Ok(transcoder) => {
                    self.put(transcoder);
                    *fault = 0;
                    return Status::Done.code();
                }
                Err(_) => OpenError::NoMemory,
            },
            Err(error) => error,
        };
        *fault = error.fault();
        error.status().code()
    }

    /// Writes the output of a payload to the room's front, where it fits. Returns what is reported of it; `Closed`
    /// where the handle is closed.
    fn report(&mut self, alloc: Global, payload: &[u8], room: &mut [u8]) -> Report
        ensures report { ReportsPayload self.old.held.value payload.now room.new result }
        ensures kept { self.new.held.value ≡ self.old.held.value }
    {
        let Some(mut transcoder) = self.take(alloc) else {
            return Report::Closed;
        };
        let report = transcoder.report(&[], payload, room);
        self.put(transcoder);
        Report::Payload(report)
    }

    /// Writes the output of a payload to the room's front, where it fits, and what is reported of it. Returns the
    /// report's status.
    pub fn transcode(
        &mut self,
        alloc: Global,
        payload: &[u8],
        room: &mut [u8],
        numbers: &mut ReportNumbers,
    ) -> u32
        ensures tells { Tells (ReportsPayload self.old.held.value payload.now room.new) result numbers.new }
        ensures kept { self.new.held.value ≡ self.old.held.value }
    {
        *numbers = numbers_of(self.report(alloc, payload, room));
        numbers.status
    }

    /// Writes the reader's message of a writer's to the room's front, where it fits. Returns what is reported of it;
    /// `Closed` where the handle is closed.
    fn report_message(&mut self, alloc: Global, ids: Ids, message: &[u8], room: &mut [u8]) -> Report
        ensures report { ReportsMessage self.old.held.value ids message.now room.new result }
        ensures kept { self.new.held.value ≡ self.old.held.value }
    {
        let Some(mut transcoder) = self.take(alloc) else {
            return Report::Closed;
        };
        let report = transcoder.report_message(ids, message, room);
        self.put(transcoder);
        report
    }

    /// Writes the reader's message of a writer's to the room's front, where it fits, and what is reported of it.
    /// Returns the report's status.
    pub fn transcode_message(
        &mut self,
        alloc: Global,
        ids: Ids,
        message: &[u8],
        room: &mut [u8],
        numbers: &mut ReportNumbers,
    ) -> u32
        ensures tells { Tells (ReportsMessage self.old.held.value ids message.now room.new) result numbers.new }
        ensures kept { self.new.held.value ≡ self.old.held.value }
    {
        *numbers = numbers_of(self.report_message(alloc, ids, message, room));
        numbers.status
    }

    /// Writes the outputs of a batch into a room one after another, and what is reported of each payload to its item.
    /// Returns the number of `Done`, or that of `Closed` where the handle is closed; then the items are as they were.
    pub fn transcode_batch(
        &mut self,
        alloc: Global,
        payloads: &[u8],
        room: &mut [u8],
        items: &mut [BatchItem],
    ) -> u32
        ensures batch { ReportsBatch self.old.held.value payloads.now room.new items.new result }
        ensures asked { map range_of items.new ≡ map range_of items.old }
        ensures kept { self.new.held.value ≡ self.old.held.value }
    {
        let Some(mut transcoder) = self.take(alloc) else {
            return Status::Closed.code();
        };
        transcoder.report_batch(payloads, room, items);
        self.put(transcoder);
        Status::Done.code()
    }
}

#[cfg(test)]
mod tests;
