//! Messages that are received in parts; their envelopes; one read, and one write.

ghost use Rattle.std.specs.Prelude.{◌++◌, ◌+◌, ◌<◌, ◌≡◌, ◌≤◌, IfErr, IfOk, List, OnErr, OnOk, [], drop, length, take, vec_len, ℕ};
ghost use Rattle.std.specs.Io.KnownBytes.{Keeps, WriteAppends};
ghost use Rattle.wire_frames.specs.Moving.{Receives};
ghost use Rattle.spec_registry.specs.declared.envelope.TheConstants.{PREFIX_LENGTH};
ghost use Rattle.spec_registry.specs.Envelope.{IsNoMessage, envelope, prefix};
ghost use Rattle.wire_frames.specs.Envelope.{IsWriterOf};

pub use spec_registry::{EnvelopeError, PREFIX_LENGTH};
use std::alloc::{AllocError, Global};
use std::io;
use std::io::{Read, Write};
use std::marker::Model;

/// Bytes that may be a message. What would be its envelope is kept apart from what would be its payload, which can so
/// be taken out as it is, without a copy.
#[derive(Drop)]
pub struct Message {
    envelope: Vec<u8>,
    payload: Vec<u8>,
}

impl Model for Message {
    ghost Value = { List ℕ };

    ghost view = { λ m. m.envelope.items ++ m.payload.items };

    ghost invariant = { λ m. (length m.envelope.items ≤ PREFIX_LENGTH)
        × (length m.envelope.items < PREFIX_LENGTH → m.payload.items ≡ []) };
}

impl Message {
    /// Returns a message of no bytes, which takes no memory.
    pub fn new(alloc: Global) -> Message
        ensures { result ≡ [] }
    {
        Message {
            envelope: Vec::new(alloc),
            payload: Vec::new(alloc),
        }
    }

    /// Returns a message of these bytes. The error is that memory ran out.
    pub fn of(alloc: Global, bytes: &[u8]) -> Result<Message, AllocError>
        ensures { IfOk result (λ message. message ≡ bytes.now) }
    {
        let cut = bytes.len().min(PREFIX_LENGTH);
        Ok(Message {
            envelope: bytes[..cut].to_vec(alloc)?,
            payload: bytes[cut..].to_vec(alloc)?,
        })
    }

    /// Returns the number of its bytes.
    pub fn len(&self) -> usize
        ensures { result ≡ length self.now }
    {
        self.envelope.len() + self.payload.len()
    }

    /// Reads once, appends what came, and returns the number of bytes, 0 only where the reader has ended.
    ///
    /// It asks for no more than `wanted` bytes in all, and memory at most doubles. The errors are the reader's, and
    /// `OutOfMemory` where memory runs out; then the bytes are as they were.
    pub fn receive<R: Read>(&mut self, reader: &mut R, wanted: usize) -> io::Result<usize>
        requires { length self.old < wanted }
        ensures received { IfOk result (Receives (R.remaining reader.old) (R.remaining reader.new) self.old self.new) }
        ensures refused { OnErr result (self.new ≡ self.old) }
        ensures kept { OnErr result (Keeps (R.remaining reader.old) (R.remaining reader.new)) }
        ensures bound { length self.new ≤ wanted }
    {
        if self.envelope.len() < PREFIX_LENGTH {
            return read_more(reader, &mut self.envelope, wanted.min(PREFIX_LENGTH));
        }
        read_more(reader, &mut self.payload, wanted - PREFIX_LENGTH)
    }

    /// Keeps the first `length` bytes alone, where there are more.
    pub fn truncate(&mut self, length: usize)
        ensures { self.new ≡ take length self.old }
    {
        self.envelope.truncate(length);
        self.payload.truncate(length.saturating_sub(PREFIX_LENGTH));
    }

    /// Returns the id of the writer's schema, where the bytes are a message. `None` where they are none.
    pub fn writer(&self) -> Option<u32>
        ensures { IsWriterOf self.now result }
    {
        match open_envelope(&self.envelope) {
            Ok((id, _)) => Some(id),
            Err(_) => None,
        }
    }

    /// Opens the message, and returns the id of the writer's schema, and the payload, in the memory that it was
    /// received in (Confluent wire format). The error says why the bytes are no message.
    pub fn open(self) -> Result<(u32, Vec<u8>), EnvelopeError>
        ensures opened { IfOk result (λ opened. self ≡ envelope opened.0 opened.1.items) }
        ensures refused { IfErr result (IsNoMessage self) }
    {
        let (id, _) = open_envelope(&self.envelope)?;
        Ok((id, self.payload))
    }
}

/// The byte that a message begins with.
const MAGIC_BYTE: u8 = 0;

/// Opens a message, and returns the id of the writer's schema, and the part of the message that is its payload
/// (Confluent wire format). The error says why the bytes are no message.
pub fn open_envelope(message: &[u8]) -> Result<(u32, &[u8]), EnvelopeError>
    ensures opened { IfOk result (λ opened. message.now ≡ envelope opened.0 opened.1.now) }
    ensures refused { IfErr result (IsNoMessage message.now) }
{
    if message.len() < PREFIX_LENGTH {
        return Err(EnvelopeError::ShortEnvelope);
    }
    if message[0] != MAGIC_BYTE {
        return Err(EnvelopeError::BadMagic);
    }
    let id = u32::from_be_bytes([message[1], message[2], message[3], message[4]]);
    Ok((id, &message[PREFIX_LENGTH..]))
}

/// Appends what comes before a payload that the schema of this id writes. It is an `Err` where memory runs out; then
/// the output is as it was.
pub fn put_envelope(id: u32, out: &mut Vec<u8>) -> Result<(), AllocError>
    ensures put { OnOk result (out.new.items ≡ out.old.items ++ prefix id) }
    ensures refused { OnErr result (out.new.items ≡ out.old.items) }
{
    let [first, second, third, fourth] = id.to_be_bytes();
    out.extend_from_slice(&[MAGIC_BYTE, first, second, third, fourth])
}

/// The number of bytes that a read asks for at least, where as many are wanted.
const LEAST_STEP: usize = 4_096;

/// The number of bytes that a read asks for at most.
const MOST_STEP: usize = 262_144;

/// Reads once, appends what came, and returns the number of bytes, 0 only where the reader has ended.
///
/// It asks for as many bytes as have come, so that memory at most doubles, and for no more than `wanted` in all. The
/// errors are the reader's, and `OutOfMemory` where memory runs out; then the bytes are as they were.
pub fn read_more<R: Read>(reader: &mut R, bytes: &mut Vec<u8>, wanted: usize) -> io::Result<usize>
    requires { vec_len bytes.old < wanted }
    ensures received { IfOk result
        (Receives (R.remaining reader.old) (R.remaining reader.new) bytes.old.items bytes.new.items) }
    ensures refused { OnErr result (bytes.new.items ≡ bytes.old.items) }
    ensures kept { OnErr result (Keeps (R.remaining reader.old) (R.remaining reader.new)) }
    ensures bound { vec_len bytes.new ≤ wanted }
{
    let had = bytes.len();
    let step = had.clamp(LEAST_STEP, MOST_STEP).min(wanted - had);
    bytes.resize(had + step, 0)?;
    match reader.read(&mut bytes[had..]) {
        Ok(count) => {
            bytes.truncate(had + count);
            Ok(count)
        }
        Err(error) => {
            bytes.truncate(had);
            Err(error)
        }
    }
}

/// Writes once what follows the first `sent` bytes, and returns the number of bytes that the writer took. The errors
/// are the writer's.
pub fn write_more<W: Write>(writer: &mut W, bytes: &[u8], sent: usize) -> io::Result<usize>
    requires { sent ≤ length bytes.now }
    ensures written { WriteAppends (W.contents writer.old) (W.contents writer.new) result (drop sent bytes.now) }
    ensures bound { IfOk result (λ n. sent + n ≤ length bytes.now) }
{
    writer.write(&bytes[sent..])
}
