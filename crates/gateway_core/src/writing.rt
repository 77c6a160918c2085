//! An answer's bytes, written to any writer.

ghost use Rattle.std.specs.Prelude.{◌≡◌, ◌++◌, ◌≤◌, IfErr, IfOk, OnOk, length, take};
ghost use Rattle.std.specs.Io.KnownBytes.{Appends, Keeps, WriteAppends};

use gateway_requests::MOST_TRIES;
use std::io::{ErrorKind, Write};

/// Why not all bytes were written.
#[derive(Clone, Copy, Debug, PartialEq, Eq)]
pub(crate) struct CutShort {
    /// How many bytes the writer took.
    pub(crate) sent: usize,
}

/// Writes once, and returns how many bytes the writer took. The error is that it fails, or was interrupted
/// `MOST_TRIES` times.
fn write_once<W: Write>(writer: &mut W, bytes: &[u8]) -> Result<usize, CutShort>
    ensures bytes { WriteAppends (W.contents writer.old) (W.contents writer.new) result bytes.now }
    ensures bound { IfOk result (λ count. count ≤ length bytes.now) }
{
    for _try in 0..MOST_TRIES {
        match writer.write(bytes) {
            Ok(count) => return Ok(count),
            Err(error) if error.kind() == ErrorKind::Interrupted => {}
            Err(_) => return Err(CutShort { sent: 0 }),
        }
    }
    Err(CutShort { sent: 0 })
}

/// Flushes the writer. Returns whether it did: `false` where it fails, or was interrupted `MOST_TRIES` times.
fn flush<W: Write>(writer: &mut W) -> bool
    ensures { Keeps (W.contents writer.old) (W.contents writer.new) }
{
    for _try in 0..MOST_TRIES {
        match writer.flush() {
            Ok(()) => return true,
            Err(error) if error.kind() == ErrorKind::Interrupted => {}
            Err(_) => return false,
        }
    }
    false
}

/// Writes all bytes; or the first of them, where the writer fails or takes none.
fn write_piece<W: Write>(writer: &mut W, bytes: &[u8]) -> Result<(), CutShort>
    ensures ok { OnOk result (Appends (W.contents writer.old) (W.contents writer.new) bytes.now) }
    ensures err { IfErr result (λ cut.
        Appends (W.contents writer.old) (W.contents writer.new) (take cut.sent bytes.now)) }
    ensures few { IfErr result (λ cut. cut.sent ≤ length bytes.now) }
{
    let mut sent = 0;
    while sent < bytes.len() {
        match write_once(writer, &bytes[sent..]) {
            Ok(count) if count > 0 => sent += count,
            _ => return Err(CutShort { sent }),
        }
    }
    Ok(())
}

/// Writes two pieces, one after the other; or the first bytes of both, where the writer fails or takes none.
fn write_pieces<W: Write>(writer: &mut W, front: &[u8], rest: &[u8]) -> Result<(), CutShort>
    ensures ok { OnOk result (Appends (W.contents writer.old) (W.contents writer.new) (front.now ++ rest.now)) }
    ensures err { IfErr result (λ cut.
        Appends (W.contents writer.old) (W.contents writer.new) (take cut.sent (front.now ++ rest.now))) }
    ensures few { IfErr result (λ cut. cut.sent ≤ length (front.now ++ rest.now)) }
{
    write_piece(writer, front)?;
    match write_piece(writer, rest) {
        Ok(()) => Ok(()),
        Err(cut) => Err(CutShort {
            sent: front.len() + cut.sent,
        }),
    }
}

/// Writes two pieces and flushes the writer; or writes the first bytes of both, where it fails or takes none.
pub(crate) fn write_all<W: Write>(writer: &mut W, front: &[u8], rest: &[u8]) -> Result<(), CutShort>
    ensures ok { OnOk result (Appends (W.contents writer.old) (W.contents writer.new) (front.now ++ rest.now)) }
    ensures err { IfErr result (λ cut.
        Appends (W.contents writer.old) (W.contents writer.new) (take cut.sent (front.now ++ rest.now))) }
    ensures few { IfErr result (λ cut. cut.sent ≤ length (front.now ++ rest.now)) }
{
    write_pieces(writer, front, rest)?;
    if flush(writer) {
        Ok(())
    } else {
        Err(CutShort {
            sent: front.len() + rest.len(),
        })
    }
}
