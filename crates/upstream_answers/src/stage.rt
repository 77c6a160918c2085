//! How much of an answer has come.

ghost use Rattle.std.specs.Prelude.{◌≡◌, ◌≤◌, IfErr, IfOk, length};
ghost use Rattle.upstream_answers.specs.Stages.{IsOfOther, IsStageOf};

use crate::fault::ReceiveFault;
use crate::head::{Front, front_of};
use crate::limits::{MOST_CONTENT, MOST_FIELDS, MOST_HEAD, limits};
use http1::decode::{Decoded, Decoder};
use httparse::spans::HeaderSpan;

/// The number of bytes up to which a head is looked at after each read. After them it is looked at where a line has
/// ended in what came, so that a head that comes a byte at a time is not read again at each of them.
const FRONT: usize = 512;

/// How much of an answer has come.
#[derive(Clone, Copy, Debug, PartialEq, Eq)]
pub(crate) enum Stage {
    /// Less than its head.
    Head,
    /// Its head, and a part of its body.
    Body(BodyStage),
    /// All of it.
    Whole,
}

/// How much of a body has come: `looked` is the number of bytes received that the decoder has looked at, `content` that
/// of the bytes of content among them.
#[derive(Clone, Copy, Debug, PartialEq, Eq)]
pub(crate) struct BodyStage {
    decoder: Decoder,
    looked: usize,
    content: usize,
}

/// Returns whether the decoder waits for more content than an answer may have.
fn is_too_long(decoder: Decoder) -> bool {
    matches!(decoder, Decoder::Length(len) if len > MOST_CONTENT as u64)
}

/// Makes the decoder look at the bytes received that it has not looked at, and returns the stage. `NoAnswer` where no
/// body can follow, `TooLarge` where it has more content than an answer may have.
fn look_at_body(
    body: BodyStage,
    received: &[u8],
    trailers: &mut [HeaderSpan],
) -> Result<Stage, ReceiveFault>
    requires { body.looked ≤ length received.now }
    ensures stage { IfOk result (IsStageOf (length received.now)) }
    ensures fault { IfErr result IsOfOther }
    ensures room { length trailers.new ≡ length trailers.old }
{
    let mut decoder = body.decoder;
    let mut looked = body.looked;
    let mut content = body.content;
    'pieces: loop {
        match decoder.decode(&received[looked..], trailers) {
            Ok(Decoded::Data(span)) => {
                looked += span.end;
                content = content.saturating_add(span.end - span.start);
                if content > MOST_CONTENT {
                    return Err(ReceiveFault::TooLarge);
                }
            }
            Ok(Decoded::NeedMore(len)) => {
                return Ok(Stage::Body(BodyStage {
                    decoder,
                    looked: looked + len,
                    content,
                }));
            }
            Ok(Decoded::End { .. }) => return Ok(Stage::Whole),
            Err(_) => return Err(ReceiveFault::NoAnswer),
        }
    }
}

/// Looks for the head, and returns the stage. `NoAnswer` where no head can follow.
fn look_at_head(received: &[u8], headers: &mut [HeaderSpan]) -> Result<Stage, ReceiveFault>
    requires { length headers.old ≡ MOST_FIELDS }
    ensures stage { IfOk result (IsStageOf (length received.now)) }
    ensures fault { IfErr result IsOfOther }
    ensures room { length headers.new ≡ length headers.old }
{
    let head = match front_of(received, headers) {
        Front::Head(head) => head,
        Front::Part => return Ok(Stage::Head),
        Front::NoHead => return Err(ReceiveFault::NoAnswer),
    };
    let decoder = Decoder::new(head.framing, &limits());
    if is_too_long(decoder) {
        return Err(ReceiveFault::TooLarge);
    }
    let body = BodyStage {
        decoder,
        looked: head.len,
        content: 0,
    };
    look_at_body(body, received, headers)
}

/// Returns whether the head is looked at after a read, after which there are these bytes, the first `had` of which
/// there were before it.
fn is_head_due(received: &[u8], had: usize) -> bool
    requires { had ≤ length received.now }
{
    had < FRONT || received.len() >= MOST_HEAD || received[had..].contains(&b'\n')
}

impl Stage {
    /// Returns the stage after a read, after which there are these bytes, the first `had` of which there were before
    /// it. `NoAnswer` where no answer can follow, `TooLarge` where it has more content than an answer may have.
    pub(crate) fn after(
        self,
        received: &[u8],
        had: usize,
        headers: &mut [HeaderSpan],
    ) -> Result<Stage, ReceiveFault>
        requires stage { IsStageOf had self }
        requires had { had ≤ length received.now }
        requires room { length headers.old ≡ MOST_FIELDS }
        ensures stage { IfOk result (IsStageOf (length received.now)) }
        ensures fault { IfErr result IsOfOther }
        ensures room { length headers.new ≡ length headers.old }
    {
        match self {
            Stage::Head if is_head_due(received, had) => look_at_head(received, headers),
            Stage::Head => Ok(Stage::Head),
            Stage::Body(body) => look_at_body(body, received, headers),
            Stage::Whole => Ok(Stage::Whole),
        }
    }

    /// Returns whether all of an answer has come, where the reader has ended: a body without a length ends with it (RFC
    /// 9112, section 6.3).
    pub(crate) fn ends_with_reader(self) -> bool {
        match self {
            Stage::Head => false,
            Stage::Body(body) => body.decoder == Decoder::UntilClose,
            Stage::Whole => true,
        }
    }
}
