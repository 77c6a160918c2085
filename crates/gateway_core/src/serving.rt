//! One request read, one answer written.

ghost use Rattle.std.specs.Prelude.{◌≡◌, ◌⊎◌, ◌++◌, [], Err, IfErr, IfOk, IfSome, drop};
ghost use Rattle.httparse.specs.Grammar.{RequestHead};
ghost use Rattle.httparse.specs.Spans.{IsRequestAt, IsRequestWithin};
ghost use Rattle.gateway_requests.specs.declared.read_error.ReadError.TheVariants as reading;
ghost use Rattle.spec_service.specs.Asking.{asked};
ghost use Rattle.gateway_requests.specs.Request.{request_of};
ghost use Rattle.gateway_requests.specs.Sizes.{IsWithin};
ghost use Rattle.spec_service.specs.declared.limits.TheConstants.{MOST_BODY};
ghost use Rattle.gateway_core.specs.Gates.{SaidNo};
ghost use Rattle.gateway_core.specs.Serving.{IsFault, ServesSome, TellsAsked, TellsRequest};
ghost use Rattle.spec_service.specs.Serving.{IsServed};
ghost use Rattle.gateway_core.specs.Transcoding.{IsWhyNone};

use crate::answering::{Reply, reply_to};
use crate::app::App;
use crate::gate::Gate;
use crate::serve_error::{ServeError, TellError};
use crate::transcode::Transcode;
use crate::writing::write_all;
use gateway_requests::{
    Fault, Front, MOST_FIELDS, MOST_HEAD, ReadError, Request, Routes, choose, path_of, read_body,
    read_head, request_of,
};
use httparse::spans::{EMPTY_HEADER_SPAN, HeaderSpan, RequestSpans};
use schema_registry::Receipt;
use spec_service::Evidence;
use std::alloc::Global;
use std::io::{Read, Write};
use std::sync::Wait;

/// Returns what a request asks whose head was received, and maybe bytes after it. It reads the rest of the body from
/// the reader.
fn request_behind<R: Read>(
    alloc: Global,
    routes: &Routes,
    reader: &mut R,
    received: &[u8],
    headers: &[HeaderSpan],
    head: &RequestSpans,
) -> Result<Result<Request, Fault>, ReadError>
    requires head { (h : RequestHead) × IsRequestAt received.now headers.now head.now h }
    requires within { IsRequestWithin received.now headers.now head.now }
    ensures ok { (h : RequestHead) → IsRequestAt received.now headers.now head.now h
        → IfOk result (TellsAsked (R.remaining reader.old)
        (λ left. asked h (drop head.now.len received.now ++ left))) }
    ensures size { IfOk result (λ r. IfOk r (λ request. IsWithin MOST_BODY (request_of request))) }
    ensures fault { IfErr result (λ e. e ≡ reading.Failed) }
{
    let chosen = match choose(routes, received, headers, head) {
        Ok(chosen) => chosen,
        Err(fault) => return Ok(Err(fault)),
    };
    let path = path_of(head.path.of(received)).as_bytes();
    match read_body(alloc, reader, &received[head.len..], chosen.body_length) {
        Ok(body) => Ok(request_of(alloc, path, body, chosen.action)),
        Err(ReadError::NoMemory) => Ok(Err(Fault::NoMemory)),
        Err(_) => Err(ReadError::Failed),
    }
}

/// Reads a request, and returns what it asks, or the first of its faults.
fn read_request<R: Read>(
    alloc: Global,
    routes: &Routes,
    reader: &mut R,
) -> Result<Result<Request, Fault>, ReadError>
    ensures ok { IfOk result (TellsRequest (R.remaining reader.old)) }
    ensures size { IfOk result (λ r. IfOk r (λ request. IsWithin MOST_BODY (request_of request))) }
    ensures closed { result ≡ Err reading.Closed → IfSome (R.remaining reader.old) (λ input. input ≡ []) }
    ensures fault { IfErr result (λ e. (e ≡ reading.Closed) ⊎ (e ≡ reading.Failed)) }
{
    let mut buffer = [0u8; MOST_HEAD];
    let mut headers: [HeaderSpan; MOST_FIELDS] = [EMPTY_HEADER_SPAN; MOST_FIELDS];
    match read_head(reader, &mut buffer, &mut headers)? {
        Front::NoHead => Ok(Err(Fault::BadRequest)),
        Front::Head { spans, received } => request_behind(
            alloc,
            routes,
            reader,
            &buffer[..received],
            &headers,
            &spans,
        ),
    }
}

/// Reads one request and writes one answer, and returns its status and the receipts that it rests on.
///
/// `Closed` where no byte came, `ReadFault` where the reader failed, `NoMemory` where even a fault's text found no
/// memory: then nothing is written. `CutShort` where the writer failed, after the first bytes of an answer, with the
/// receipts that this answer rests on.
pub fn serve_and_tell<R: Wait, T: Transcode, I: Read, O: Write, G: Gate>(
    rt: &R,
    app: &App<'_, T>,
    seat: &mut T::Seat,
    reader: &mut I,
    writer: &mut O,
    gate: &mut G,
) -> Result<(u16, Evidence<Receipt>), TellError>
    requires cells { T.cells app.now.transcoder.now ≡ app.now.registry.now }
    requires seat { T.rests app.now.transcoder.now seat.old }
    ensures seat { T.rests app.now.transcoder.now seat.new }
    ensures served { IfOk result (λ told. IsServed (IsWhyNone (T.refuses app.now.transcoder.now seat.old seat.new)
        (SaidNo G.says gate.old gate.new)) app.now.registry.now (I.remaining reader.old)
        (O.contents writer.old) (O.contents writer.new) told.0 told.1) }
    ensures fault { IfErr result (IsFault (IsWhyNone (T.refuses app.now.transcoder.now seat.old seat.new)
        (SaidNo G.says gate.old gate.new)) app.now.registry.now (I.remaining reader.old)
        (O.contents writer.old) (O.contents writer.new)) }
{
    let request = read_request(app.alloc, app.routes, reader)?;
    let reply = reply_to(rt, app, seat, gate, request)?;
    let Reply {
        bytes,
        status,
        evidence,
    } = reply;
    match write_all(writer, &bytes.front, &bytes.rest) {
        Ok(()) => Ok((status, evidence)),
        Err(cut) => Err(TellError::CutShort {
            sent: cut.sent,
            evidence,
        }),
    }
}

/// Reads one request and writes one answer, as `serve_and_tell` does, and returns the status alone, without the
/// receipts. The errors are those of `serve_and_tell`, with `WriteFault` for `CutShort`.
pub fn serve_one<R: Wait, T: Transcode, I: Read, O: Write, G: Gate>(
    rt: &R,
    app: &App<'_, T>,
    seat: &mut T::Seat,
    reader: &mut I,
    writer: &mut O,
    gate: &mut G,
) -> Result<u16, ServeError>
    requires cells { T.cells app.now.transcoder.now ≡ app.now.registry.now }
    requires seat { T.rests app.now.transcoder.now seat.old }
    ensures seat { T.rests app.now.transcoder.now seat.new }
    ensures served { ServesSome (IsWhyNone (T.refuses app.now.transcoder.now seat.old seat.new)
        (SaidNo G.says gate.old gate.new)) app.now.registry.now (I.remaining reader.old)
        (O.contents writer.old) (O.contents writer.new) result }
{
    let (status, evidence) = serve_and_tell(rt, app, seat, reader, writer, gate)?;
    drop(evidence);
    Ok(status)
}
