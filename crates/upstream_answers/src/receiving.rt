//! The bytes of an answer, read until it is whole.

ghost use Rattle.std.specs.Prelude.{◌≡◌, ◌<◌, ◌≤◌, Err, IfErr, IfOk, IfSome, [], length, vec_len};
ghost use Rattle.std.specs.Io.KnownBytes.{Consumes, IsAtEnd};
ghost use Rattle.wire_frames.specs.Moving.{Receives};
ghost use Rattle.upstream_answers.specs.Stages.{IsOfOther};

use crate::fault::ReceiveFault;
use crate::limits::{MOST_ANSWER, MOST_FIELDS};
use crate::read_once::read_once;
use crate::stage::Stage;
use httparse::spans::{EMPTY_HEADER_SPAN, HeaderSpan};
use std::alloc::Global;
use std::io::Read;

/// The number of bytes that a read asks for.
const CHUNK: usize = 4_096;

/// Reads once into `chunk`, appends what came, and returns the number of bytes, 0 only where the reader has ended.
/// `Failed` where the reader fails.
fn read_more<R: Read>(
    reader: &mut R,
    chunk: &mut [u8],
    received: &mut Vec<u8>,
) -> Result<usize, ReceiveFault>
    requires { 0 < length chunk.old }
    ensures received { IfOk result
        (Receives (R.remaining reader.old) (R.remaining reader.new) received.old.items received.new.items) }
    ensures bound { IfOk result (λ count. count ≤ length chunk.old) }
    ensures chunk { length chunk.new ≡ length chunk.old }
    ensures fault { IfErr result IsOfOther }
{
    let count = read_once(reader, chunk)?;
    received.extend_from_slice(&chunk[..count])?;
    Ok(count)
}

/// Reads the bytes of one answer, until it is whole: what a length or chunks end is whole without the reader's end.
/// More bytes than those of the answer may have come with its last ones.
///
/// `Closed` where the reader ended before any byte, `Cut` where it ended within an answer, `Failed` where it failed,
/// `NoAnswer` where no bytes that follow can make an answer, `TooLarge` where it is larger than the limits.
pub fn receive<R: Read>(alloc: Global, reader: &mut R) -> Result<Vec<u8>, ReceiveFault>
    ensures bytes { IfOk result (λ received.
        Consumes (R.remaining reader.old) (R.remaining reader.new) received.items) }
    ensures some { IfOk result (λ received. 0 < vec_len received) }
    ensures size { IfOk result (λ received. vec_len received ≤ MOST_ANSWER) }
    ensures closed { result ≡ Err ReceiveFault.Closed → IfSome (R.remaining reader.old) (λ left. left ≡ []) }
    ensures cut { result ≡ Err ReceiveFault.Cut → IsAtEnd (R.remaining reader.new) }
{
    let mut received = Vec::new(alloc);
    let mut chunk = [0u8; CHUNK];
    let mut headers: [HeaderSpan; MOST_FIELDS] = [EMPTY_HEADER_SPAN; MOST_FIELDS];
    let mut stage = Stage::Head;
    'reads: while received.len() <= MOST_ANSWER - CHUNK {
        let had = received.len();
        if read_more(reader, &mut chunk, &mut received)? == 0 {
            return match stage {
                _ if had == 0 => Err(ReceiveFault::Closed),
                _ if stage.ends_with_reader() => Ok(received),
                _ => Err(ReceiveFault::Cut),
            };
        }
        stage = stage.after(&received, had, &mut headers)?;
        if stage == Stage::Whole {
            return Ok(received);
        }
    }
    Err(ReceiveFault::TooLarge)
}
