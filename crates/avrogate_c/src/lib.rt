//! Edge: C; a static library.
//!
//! The transcoder as programs in other languages call it. `include/avrogate.h` declares each of these functions, and
//! says in words what it asks of its callers and what it tells.
#![tactic(auto)]

ghost use Rattle.std.specs.Prelude.{◌≡◌, None, map};
ghost use Rattle.embedding.specs.Batch.{ReportsBatch, range_of};
ghost use Rattle.embedding.specs.Opening.{TellsOpening, TellsReading};
ghost use Rattle.spec_library.specs.Report.{ReportsMessage, ReportsPayload};
ghost use Rattle.embedding.specs.Report.{Tells};
ghost use Rattle.embedding.specs.Words.{WritesWords};

use embedding::{BatchItem, Ids, ReportNumbers, VERSION, report_reading, write_words};
use std::alloc::Global;
use transcoder_handle::Handle;

/// Opens a transcoder on the pair that two texts declare, and first closes it.
#[unsafe(no_mangle)]
pub extern "C" fn avrogate_open(
    transcoder: &mut Handle,
    alloc: Global,
    writer: &[u8],
    reader: &[u8],
    fault: &mut u32,
) -> u32
    ensures { TellsOpening writer.now reader.now transcoder.new.held.value result fault.new }
{
    transcoder.open(alloc, writer, reader, fault)
}

/// Closes a transcoder, and gives its memory back.
#[unsafe(no_mangle)]
pub extern "C" fn avrogate_close(transcoder: &mut Handle, alloc: Global)
    ensures { transcoder.new.held.value ≡ None }
{
    transcoder.close(alloc)
}

/// Writes the output of a payload to the room's front, where it fits, and what is reported of it.
#[unsafe(no_mangle)]
pub extern "C" fn avrogate_transcode(
    transcoder: &mut Handle,
    alloc: Global,
    payload: &[u8],
    room: &mut [u8],
    report: &mut ReportNumbers,
) -> u32
    ensures tells { Tells (ReportsPayload transcoder.old.held.value payload.now room.new) result report.new }
    ensures kept { transcoder.new.held.value ≡ transcoder.old.held.value }
{
    transcoder.transcode(alloc, payload, room, report)
}

/// Writes the reader's message of a writer's to the room's front, where it fits, and what is reported of it.
#[unsafe(no_mangle)]
pub extern "C" fn avrogate_transcode_message(
    transcoder: &mut Handle,
    alloc: Global,
    writer_id: u32,
    reader_id: u32,
    message: &[u8],
    room: &mut [u8],
    report: &mut ReportNumbers,
) -> u32
    ensures tells { Tells (ReportsMessage transcoder.old.held.value (record { writer = writer_id; reader = reader_id })
        message.now room.new) result report.new }
    ensures kept { transcoder.new.held.value ≡ transcoder.old.held.value }
{
    let ids = Ids {
        writer: writer_id,
        reader: reader_id,
    };
    transcoder.transcode_message(alloc, ids, message, room, report)
}

/// Writes the outputs of many payloads into a room one after another, and what is reported of each to its item.
#[unsafe(no_mangle)]
pub extern "C" fn avrogate_transcode_batch(
    transcoder: &mut Handle,
    alloc: Global,
    payloads: &[u8],
    room: &mut [u8],
    items: &mut [BatchItem],
) -> u32
    ensures batch { ReportsBatch transcoder.old.held.value payloads.now room.new items.new result }
    ensures asked { map range_of items.new ≡ map range_of items.old }
    ensures kept { transcoder.new.held.value ≡ transcoder.old.held.value }
{
    transcoder.transcode_batch(alloc, payloads, room, items)
}

/// Returns whether the reader of the second text can read all data of the writer of the first, but for bytes that are
/// no UTF-8.
#[unsafe(no_mangle)]
pub extern "C" fn avrogate_can_read(
    alloc: Global,
    writer: &[u8],
    reader: &[u8],
    fault: &mut u32,
) -> u32
    ensures { TellsReading writer.now reader.now result fault.new }
{
    report_reading(alloc, writer, reader, fault)
}

/// Writes the words of a status to the room's front, where they fit. Returns how long they are.
#[unsafe(no_mangle)]
pub extern "C" fn avrogate_status_text(status: u32, room: &mut [u8]) -> usize
    ensures { WritesWords status room.new result }
{
    write_words(status, room)
}

/// Returns the version of the library.
#[unsafe(no_mangle)]
pub extern "C" fn avrogate_version() -> u32
    ensures { result ≡ VERSION }
{
    VERSION
}
