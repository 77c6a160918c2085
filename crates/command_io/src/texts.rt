//! The subjects, levels and schema texts in a line.

ghost use Rattle.std.specs.Prelude.{◌≡◌, IfErr, IfOk, IsSome, Some, option_map, string_bytes};
ghost use Rattle.spec_lines.specs.Request.{Happen};
ghost use Rattle.command_io.specs.Request.{request_of};
ghost use Rattle.command_io.specs.Reading.{HasSubject};
ghost use Rattle.spec_lines.specs.Reading.{level_in, no_level, piece_in, register_in, set_level};
ghost use Rattle.spec_sessions.specs.Event.{Register};
ghost use Rattle.spec_lines.specs.Words.{last_bytes, subject_in};
ghost use Rattle.command_io.specs.Words.{words_left};
ghost use Rattle.spec_registry.specs.Level.{level_named};

use crate::numbers::first_number;
use crate::reading::on_session;
use crate::request::Request;
use crate::words::{only_word, two_words, word_and_text};
use assembler::bytes_of;
use schema_registry::{Level, Refusal, is_subject, parse_level};
use session_core::{Act, Event};
use std::alloc::{AllocError, Global};

/// Returns the event that registers a text for a subject, as a request.
fn register(alloc: Global, subject: &str, text: &str) -> Result<Request, AllocError>
    ensures { IfOk result (λ request. request_of request ≡ Happen (Register subject.now text.now)) }
{
    let subject = String::from_str(alloc, subject)?;
    let text = String::from_str(alloc, text)?;
    Ok(Request::Event(Event::Register { subject, text }))
}

/// Returns the request that registers a text, by a subject, and a schema's text, which is all after the next space;
/// `None` where these are not left.
#[tactic(auto, unfolding(spec_lines::specs::Reading::register_in))]
pub(crate) fn register_of(alloc: Global, left: Option<&str>) -> Result<Option<Request>, AllocError>
    ensures line { IfOk result (λ found. option_map request_of found ≡ register_in (words_left left.entry)) }
    ensures memory { IfErr result (λ e. HasSubject (register_in (words_left left.entry))) }
{
    let Some((subject, text)) = word_and_text(left) else {
        return Ok(None);
    };
    let line = register(alloc, subject, text)?;
    Ok(Some(line))
}

/// Returns the level with a name; `None` where no level has it.
fn level_of(word: &str) -> Option<Level>
    ensures { result ≡ level_named word.now }
{
    parse_level(word).ok()
}

/// Returns the subject that a word names, which is `None` for `*`, the global level.
fn subject_of(alloc: Global, word: &str) -> Result<Option<String>, AllocError>
    ensures subject { IfOk result (λ subject. option_map string_bytes subject ≡ subject_in word.now) }
    ensures memory { IfErr result (λ e. IsSome (subject_in word.now)) }
{
    if word == "*" {
        return Ok(None);
    }
    let subject = String::from_str(alloc, word)?;
    Ok(Some(subject))
}

/// Returns why a level is not set by a word that names none: `BadSubject` where the subject has no valid name, else
/// `BadLevel`.
fn no_level(subject: &str) -> Refusal
    ensures { result ≡ no_level (subject_in subject.now) }
{
    if subject == "*" || is_subject(subject) {
        Refusal::BadLevel
    } else {
        Refusal::BadSubject
    }
}

/// Returns the event that sets a level, or why none is set, as a request.
fn set_level(alloc: Global, subject: &str, level: &str) -> Result<Request, AllocError>
    ensures line { IfOk result
        (λ request. request_of request ≡ set_level (subject_in subject.now) (level_named level.now)) }
    ensures memory { IfErr result
        (λ e. HasSubject (Some (set_level (subject_in subject.now) (level_named level.now)))) }
{
    let Some(level) = level_of(level) else {
        return Ok(Request::NoLevel(no_level(subject)));
    };
    let subject = subject_of(alloc, subject)?;
    Ok(Request::Event(Event::Level { subject, level }))
}

/// Returns the request that sets a level, by a subject and the name of a level; `None` where other words are left.
#[tactic(auto, unfolding(spec_lines::specs::Reading::level_in))]
pub(crate) fn level_line_of(
    alloc: Global,
    left: Option<&str>,
) -> Result<Option<Request>, AllocError>
    ensures line { IfOk result (λ found. option_map request_of found ≡ level_in (words_left left.entry)) }
    ensures memory { IfErr result (λ e. HasSubject (level_in (words_left left.entry))) }
{
    let Some((subject, level)) = two_words(left) else {
        return Ok(None);
    };
    let line = set_level(alloc, subject, level)?;
    Ok(Some(line))
}

/// Returns the bytes that the one word that is left spells; `None` where it spells none, or other words are left.
#[tactic(auto, unfolding(spec_lines::specs::Words::last_bytes))]
fn last_bytes(alloc: Global, left: Option<&str>) -> Result<Option<Vec<u8>>, AllocError>
    ensures { IfOk result (λ found. option_map (λ bytes. bytes.items) found ≡ last_bytes (words_left left.entry)) }
{
    match only_word(left) {
        Some(word) => bytes_of(alloc, word.as_bytes()),
        None => Ok(None),
    }
}

/// Returns the request that adds a piece to a session, by its index and the piece's bytes; `None` where other words
/// are left.
#[tactic(auto, unfolding(spec_lines::specs::Reading::piece_in))]
pub(crate) fn piece_of(alloc: Global, left: Option<&str>) -> Result<Option<Request>, AllocError>
    ensures { IfOk result (λ found. option_map request_of found ≡ piece_in (words_left left.entry)) }
{
    let Some((session, left)) = first_number(left) else {
        return Ok(None);
    };
    match last_bytes(alloc, left)? {
        Some(bytes) => Ok(Some(on_session(session, Act::Piece(bytes)))),
        None => Ok(None),
    }
}
