//! Answering the lines of `replay`.

ghost use Rattle.std.specs.Prelude.{◌≡◌, ◌++◌, string_bytes, IfOk, OnOk};
ghost use Rattle.spec_lines.specs.Lines.{lines};
ghost use Rattle.commands.specs.Folding.{Grows};
ghost use Rattle.spec_lines.specs.Replaying.{AnswersLine, AnswersRequest, IsReplayed, reply_line};
ghost use Rattle.command_io.specs.Request.{request_of};

use crate::telling::{push_code, push_end, push_refusal, push_state};
use command_io::{Request, read_replay_line, split_line};
use memchr::memchr_iter;
use session_core::{EventRefusal, EventReply, PairRow, World};
use std::alloc::{AllocError, Global};
use std::fmt::Write;

/// Appends the reply to an event.
fn push_reply(output: &mut String, reply: EventReply) -> Result<(), AllocError>
    ensures { OnOk result (string_bytes output.new ≡ string_bytes output.old ++ reply_line reply) }
{
    match reply {
        EventReply::Id(id) => write!(output, "id {id}\n"),
        EventReply::Done => output.push_str("ok\n"),
        EventReply::SessionIs(number) => write!(output, "session {number}\n"),
        EventReply::Rows(rows) => write!(output, "rows {rows}\n"),
        EventReply::Refused(refusal) => push_refusal(output, refusal.name()),
    }
}

/// Appends what is answered to a request.
fn push_request<'p>(
    alloc: Global,
    world: &mut World<'p>,
    programs: &'p PairRow,
    request: &Request,
    output: &mut String,
) -> Result<(), AllocError>
    ensures { OnOk result (Grows (λ answer. AnswersRequest (request_of request.now) answer world.old world.new)
        (string_bytes output.old) (string_bytes output.new)) }
{
    match request {
        Request::Event(event) => {
            let reply = world.event(programs, event);
            push_reply(output, reply)
        }
        Request::NoLevel(refusal) => push_refusal(output, refusal.name()),
        Request::Show(number) => match world.session(*number) {
            Some(session) => push_state(alloc, output, session),
            None => push_refusal(output, EventRefusal::NoSession.name()),
        },
        Request::List(number) => match world.session(*number) {
            Some(session) => push_code(alloc, output, session),
            None => push_refusal(output, EventRefusal::NoSession.name()),
        },
        Request::Result(number) => match world.session(*number) {
            Some(session) => push_end(alloc, output, session),
            None => push_refusal(output, EventRefusal::NoSession.name()),
        },
    }
}

/// Appends what is answered to a line.
fn push_answer<'p>(
    alloc: Global,
    world: &mut World<'p>,
    programs: &'p PairRow,
    line: &[u8],
    output: &mut String,
) -> Result<(), AllocError>
    ensures { OnOk result (Grows (λ answer. AnswersLine line.now answer world.old world.new)
        (string_bytes output.old) (string_bytes output.new)) }
{
    match read_replay_line(alloc, line)? {
        Some(request) => push_request(alloc, world, programs, &request, output),
        None => output.push_str("bad line\n"),
    }
}

/// Returns the answers to lines, whose programs are in a row.
fn answers<'p>(alloc: Global, programs: &'p PairRow, input: &[u8]) -> Result<String, AllocError>
    ensures { IfOk result (λ output. IsReplayed (lines input.now) (string_bytes output)) }
{
    let mut world = World::new(alloc);
    let mut output = String::new(alloc);
    let mut rest = input;
    while let Some((line, later)) = split_line(rest) {
        push_answer(alloc, &mut world, programs, line, &mut output)?;
        rest = later;
    }
    Ok(output)
}

/// Returns the answers to lines, each of which is an event of a world, or asks for a text of one of its sessions. The
/// world has room for as many programs as there are lines.
pub fn replay(alloc: Global, input: &[u8]) -> Result<String, AllocError>
    ensures { IfOk result (λ output. IsReplayed (lines input.now) (string_bytes output)) }
{
    let pairs = memchr_iter(b'\n', input).count();
    let programs = PairRow::new(alloc, pairs + 1)?;
    answers(alloc, &programs, input)
}
