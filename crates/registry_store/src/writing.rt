//! A command as a line.

ghost use Rattle.std.specs.Prelude.{◌≡◌, ◌++◌, IfOk, IsOk, OnOk, string_bytes};
ghost use Rattle.std.specs.Option.{option_copied};
ghost use Rattle.registry_store.specs.Line.{body_of, line_of, subject_word};
ghost use Rattle.registry_store.specs.Stored.{IsSubject, LevelSet, Registered, stored_of};

use crate::check::with_check;
use crate::format::{TEXT_ESCAPES, WORD_ESCAPES};
use crate::stored::StoredCommand;
use percent_encoding::{percent_encode, utf8_percent_encode};
use std::alloc::{AllocError, Global};

/// Returns the line of a registration, without a newline: a schema's text got this id under a subject.
pub fn registration_line(
    alloc: Global,
    id: u32,
    subject: &str,
    text: &str,
) -> Result<Vec<u8>, AllocError>
    ensures { IfOk result (λ line. line.items ≡ line_of (Registered id subject.now text.now)) }
{
    with_check(registration_body(alloc, id, subject, text)?)
}

/// Returns the line of a level that was set, without a newline; no subject is the global level.
pub fn level_line(alloc: Global, subject: Option<&str>, level: &str) -> Result<Vec<u8>, AllocError>
    ensures line { IfOk result (λ line. line.items ≡ line_of (LevelSet (option_copied subject.entry) level.now)) }
    ensures is_text { IsOk result → IsSubject (option_copied subject.entry) }
{
    with_check(level_body(alloc, subject, level)?)
}

/// Returns a registration's line before its check.
fn registration_body(
    alloc: Global,
    id: u32,
    subject: &str,
    text: &str,
) -> Result<String, AllocError>
    ensures { IfOk result (λ body. string_bytes body ≡ body_of (Registered id subject.now text.now)) }
{
    let mut body = format!(in alloc; "register {id} ")?;
    utf8_percent_encode(subject, WORD_ESCAPES).append_to(&mut body)?;
    body.push_str(" ")?;
    utf8_percent_encode(text, TEXT_ESCAPES).append_to(&mut body)?;
    Ok(body)
}

/// Returns a level's line before its check.
fn level_body(alloc: Global, subject: Option<&str>, level: &str) -> Result<String, AllocError>
    ensures body { IfOk result (λ body. string_bytes body
        ≡ body_of (LevelSet (option_copied subject.entry) level.now)) }
    ensures is_text { IsOk result → IsSubject (option_copied subject.entry) }
{
    let mut body = String::from_str(alloc, "level ")?;
    push_subject(&mut body, subject)?;
    body.push_str(" ")?;
    utf8_percent_encode(level, WORD_ESCAPES).append_to(&mut body)?;
    Ok(body)
}

/// Appends a level's subject as a field, `*` where there is none. An `Err` means that memory ran out.
fn push_subject(body: &mut String, subject: Option<&str>) -> Result<(), AllocError>
    ensures is_text { IsSubject (option_copied subject.entry) }
    ensures field { OnOk result
        (string_bytes body.new ≡ string_bytes body.old ++ subject_word (option_copied subject.entry)) }
{
    match subject {
        None => body.push_str("*"),
        Some(subject) => percent_encode(subject.as_bytes(), WORD_ESCAPES).append_to(body),
    }
}

/// Returns a command's line before its check.
pub(crate) fn command_body(alloc: Global, command: &StoredCommand) -> Result<String, AllocError>
    ensures { IfOk result (λ body. string_bytes body ≡ body_of (stored_of command.now)) }
{
    match command {
        StoredCommand::Registration { id, subject, text } => registration_body(
            alloc,
            *id,
            subject.as_str(),
            text.as_str(),
        ),
        StoredCommand::Level {
            subject: None,
            level,
        } => level_body(alloc, None, level.as_str()),
        StoredCommand::Level {
            subject: Some(subject),
            level,
        } => level_body(alloc, Some(subject.as_str()), level.as_str()),
    }
}
