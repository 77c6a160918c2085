//! What a line of `replay` asks for, by its words.

ghost use Rattle.std.specs.Prelude.{◌≡◌, IfErr, IfOk, Some, option_map};
ghost use Rattle.command_io.specs.Request.{request_of};
ghost use Rattle.command_io.specs.Reading.{WantsMemory, kind_in};
ghost use Rattle.spec_lines.specs.Reading.{line_in, on_session, replay_line, slice_in};
ghost use Rattle.session_core.specs.Event.{act_of};
ghost use Rattle.command_io.specs.Words.{words_left};
ghost use Rattle.spec_lines.specs.Words.{words_of_text};

use crate::kind::{Kind, kind_named};
use crate::numbers::{first_number, last_number, number_and_rows, pair};
use crate::request::Request;
use crate::texts::{level_line_of, piece_of, register_of};
use crate::words::first_word;
use session_core::{Act, Event};
use std::alloc::{AllocError, Global};

/// Returns the request for an act on the session at an index.
pub(crate) fn on_session(session: u32, act: Act) -> Request
    ensures { request_of result ≡ on_session session (act_of act) }
{
    Request::Event(Event::On {
        session: session as usize,
        act,
    })
}

/// Returns the request for a slice, by a session, a worker and a number of rows; `None` where other words are left.
#[tactic(auto, unfolding(spec_lines::specs::Reading::slice_in))]
fn slice_of(left: Option<&str>) -> Option<Request>
    ensures { option_map request_of result ≡ slice_in (words_left left.entry) }
{
    let (session, left) = first_number(left)?;
    let (worker, rows) = number_and_rows(left)?;
    Some(on_session(session, Act::Slice { worker, rows }))
}

/// Returns what a line of a kind asks for, by the words that are left; `None` where they do not fit it.
fn request_of_kind(
    alloc: Global,
    kind: Kind,
    left: Option<&str>,
) -> Result<Option<Request>, AllocError>
    ensures line { IfOk result (λ found. option_map request_of found ≡ line_in kind (words_left left.entry)) }
    ensures memory { IfErr result (λ e. WantsMemory (Some kind) (line_in kind (words_left left.entry))) }
{
    match kind {
        Kind::Register => register_of(alloc, left),
        Kind::Level => level_line_of(alloc, left),
        Kind::Piece => piece_of(alloc, left),
        Kind::Publish => Ok(pair(left).map(|(writer, reader)| Request::Event(Event::Publish {
            writer,
            reader,
        }))),
        Kind::Begin => Ok(pair(left).map(|(writer, reader)| Request::Event(Event::Begin {
            writer,
            reader,
        }))),
        Kind::Finish => Ok(last_number(left).map(|session| on_session(session, Act::Finish))),
        Kind::Slice => Ok(slice_of(left)),
        Kind::Steal => Ok(pair(left).map(|(session, worker)| on_session(
            session,
            Act::Steal(worker),
        ))),
        Kind::Break => Ok(pair(left).map(|(session, address)| on_session(
            session,
            Act::Break(address),
        ))),
        Kind::Clear => Ok(pair(left).map(|(session, address)| on_session(
            session,
            Act::Clear(address),
        ))),
        Kind::Refuse => Ok(last_number(left).map(|session| on_session(session, Act::Refuse))),
        Kind::Walk => Ok(number_and_rows(left).map(|(session, rows)| on_session(
            session,
            Act::Walk(rows),
        ))),
        Kind::Go => Ok(number_and_rows(left).map(|(session, rows)| on_session(
            session,
            Act::Go(rows),
        ))),
        Kind::Show => Ok(last_number(left).map(|session| Request::Show(session as usize))),
        Kind::List => Ok(last_number(left).map(|session| Request::List(session as usize))),
        Kind::Result => Ok(last_number(left).map(|session| Request::Result(session as usize))),
    }
}

/// Returns what a line of `replay` asks for. `None` where it has none of the forms, or is no text.
#[tactic(auto, unfolding(spec_lines::specs::Reading::replay_line, spec_lines::specs::Reading::replay_line_in, crate::specs::Reading::kind_in))]
pub fn read_replay_line(alloc: Global, line: &[u8]) -> Result<Option<Request>, AllocError>
    ensures line { IfOk result (λ found. option_map request_of found ≡ replay_line line.now) }
    ensures memory { IfErr result (λ e. WantsMemory (kind_in (words_of_text line.now)) (replay_line line.now)) }
{
    let Some((word, left)) = first_word(line) else {
        return Ok(None);
    };
    let Some(kind) = kind_named(word) else {
        return Ok(None);
    };
    request_of_kind(alloc, kind, left)
}
