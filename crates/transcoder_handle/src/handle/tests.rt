//! The calls of a handle, as a program in another language makes them.

use super::*;

const WRITER: &[u8] =
    b"{\"type\":\"record\",\"name\":\"T\",\"fields\":[{\"name\":\"a\",\"type\":\"long\"},{\"name\":\"b\",\"type\":\"string\"}]}";

const READER: &[u8] =
    b"{\"type\":\"record\",\"name\":\"T\",\"fields\":[{\"name\":\"b\",\"type\":[\"null\",\"string\"]},{\"name\":\"c\",\"type\":\"int\",\"default\":7}]}";

const PAYLOAD: &[u8] = b"\x36\x06foo";

/// The payload without its last byte.
const CUT: &[u8] = b"\x36\x06fo";

const OUTPUT: &[u8] = b"\x02\x06foo\x0e";

const NOTHING: ReportNumbers = ReportNumbers {
    status: 0,
    kind: 0,
    length: 0,
    offset: 0,
    writer_node: 0,
    reader_node: 0,
    writer_id: 0,
};

/// Returns whether a payload is rewritten into a room that holds its output, whether one that does not yields the
/// length, and whether a fault is reported; and whether a closed handle reports that it is closed.
fn payloads_are_rewritten(alloc: Global) -> bool {
    let mut handle = Handle::closed();
    let (mut fault, mut room, mut small, mut told) = (0, [0; 16], [0; 5], NOTHING);
    let mut right = handle.transcode(alloc, PAYLOAD, &mut room, &mut told) == 7;
    right &= handle.open(alloc, WRITER, READER, &mut fault) == 0;
    right &= handle.transcode(alloc, PAYLOAD, &mut room, &mut told) == 0;
    right &= told.length == 6 && &room[..6] == OUTPUT;
    right &= handle.transcode(alloc, PAYLOAD, &mut small, &mut told) == 1 && told.length == 6;
    right &= handle.transcode(alloc, CUT, &mut room, &mut told) == 3;
    right &= told.kind == 10 && told.offset == 4;
    handle.close(alloc);
    right &= handle.transcode(alloc, PAYLOAD, &mut room, &mut told) == 7;
    handle.discard();
    right
}

/// Returns whether texts that make no pair are reported, and leave the handle closed.
fn bad_texts_are_told(alloc: Global) -> bool {
    let mut handle = Handle::closed();
    let (mut fault, mut room, mut told) = (0, [0; 16], NOTHING);
    let mut right = handle.open(alloc, WRITER, READER, &mut fault) == 0;
    right &= handle.open(alloc, WRITER, b"{", &mut fault) == 9 && fault == 2;
    right &= handle.transcode(alloc, PAYLOAD, &mut room, &mut told) == 7;
    right &= handle.open(alloc, b"\xff", READER, &mut fault) == 8 && fault == 12;
    handle.close(alloc);
    handle.discard();
    right
}

/// Returns whether messages are rewritten, and those of another writer and what is no message are reported.
fn messages_are_rewritten(alloc: Global) -> bool {
    let mut handle = Handle::closed();
    let (mut fault, mut room, mut small, mut told) = (0, [0; 16], [0; 10], NOTHING);
    let ids = Ids {
        writer: 258,
        reader: 3,
    };
    let message = b"\x00\x00\x00\x01\x02\x36\x06foo".as_slice();
    let other = b"\x00\x00\x00\x01\x03\x36\x06foo".as_slice();
    let mut right = handle.open(alloc, WRITER, READER, &mut fault) == 0;
    right &= handle.transcode_message(alloc, ids, message, &mut room, &mut told) == 0;
    right &= told.length == 11 && &room[..11] == b"\x00\x00\x00\x00\x03\x02\x06foo\x0e".as_slice();
    right &= handle.transcode_message(alloc, ids, message, &mut small, &mut told) == 1;
    right &= told.length == 11;
    right &= handle.transcode_message(alloc, ids, other, &mut room, &mut told) == 13;
    right &= told.writer_id == 259;
    right &= handle.transcode_message(alloc, ids, b"\x01\x00\x00\x01\x02", &mut room, &mut told)
        == 12;
    right &= told.kind == 2;
    handle.close(alloc);
    handle.discard();
    right
}

/// Returns an item that asks for a payload.
fn item(payload_offset: usize, payload_length: usize) -> BatchItem {
    BatchItem {
        payload_offset,
        payload_length,
        output_offset: 0,
        report: NOTHING,
    }
}

/// Returns whether each item of a batch gets the report that its payload alone would get, whatever is beside it.
fn batches_are_rewritten(alloc: Global) -> bool {
    let mut handle = Handle::closed();
    let (mut fault, mut room) = (0, [0; 14]);
    let mut items = [
        item(0, 5),
        item(0, 4),
        item(5, 5),
        item(5, 6),
        item(0, 5),
        item(10, 0),
    ];
    let mut right = handle.transcode_batch(alloc, b"", &mut room, &mut items) == 7;
    right &= handle.open(alloc, WRITER, READER, &mut fault) == 0;
    right &= handle.transcode_batch(alloc, b"\x36\x06foo\x36\x06bar", &mut room, &mut items) == 0;
    right &= &room[..12] == b"\x02\x06foo\x0e\x02\x06bar\x0e".as_slice();
    let mut statuses = [0; 6];
    let mut offsets = [0; 6];
    for (index, item) in items.iter().enumerate() {
        statuses[index] = item.report.status;
        offsets[index] = item.output_offset;
    }
    right &= statuses == [0, 3, 0, 14, 1, 3] && offsets == [0, 6, 6, 12, 12, 12];
    right &= items[4].report.length == 6;
    handle.close(alloc);
    handle.discard();
    right
}

#[test]
fn calls_are_answered(rt: HostRuntime) {
    let alloc = rt.alloc();
    assert!(rt; payloads_are_rewritten(alloc));
    assert!(rt; bad_texts_are_told(alloc));
    assert!(rt; messages_are_rewritten(alloc));
    assert!(rt; batches_are_rewritten(alloc));
}
