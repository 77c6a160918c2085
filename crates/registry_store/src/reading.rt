//! A line as a command.

ghost use Rattle.std.specs.Prelude.{◌≡◌, ◌≢◌, ◌^◌, ◌<◌, ◌++◌, ◌∷◌, ℕ, List, Option, All, Err, IfErr, IfOk, IfSome, IsSomeAnd, codes, decimal, option_map, string_bytes, true};
ghost use Rattle.std.specs.Str.{IsUtf8};
ghost use Rattle.percent_encoding.specs.AsciiSet.{contains};
ghost use Rattle.percent_encoding.specs.declared.ascii_set.AsciiSet.{AsciiSet};
ghost use Rattle.percent_encoding.specs.Percent.{percent_encode};
ghost use Rattle.registry_store.specs.Line.{HasCheck, body_of, line_of, readable, subject_word, word};
ghost use Rattle.registry_store.specs.Reading.{IsNoCommand, ReadsAs};
ghost use Rattle.registry_store.specs.Stored.{IsSubject, LevelSet, MayBeStored, Registered, Stored, stored_of};

use crate::check::checked_body;
use crate::fault::LineFault;
use crate::format::SPACE;
use crate::stored::StoredCommand;
use crate::writing::command_body;
use percent_encoding::percent_decode;
use std::alloc::Global;
use std::str;

/// Reads a line, without its newline, as the command that it says. Only what would be written for the command is
/// read.
///
/// `BadCheck`: the line does not end with the check of what is before it. `BadLine`: the check is right, and the line
/// is that of no command.
pub fn parse(alloc: Global, line: &[u8]) -> Result<StoredCommand, LineFault>
    ensures value { IfOk result (λ command. line.now ≡ line_of (stored_of command)) }
    ensures may { IfOk result (λ command. MayBeStored (stored_of command)) }
    ensures bad_check { result ≡ Err LineFault.BadCheck → ¬ (HasCheck line.now) }
    ensures bad_line { result ≡ Err LineFault.BadLine → HasCheck line.now × IsNoCommand line.now }
{
    let Some(body) = checked_body(line) else {
        return Err(LineFault::BadCheck);
    };
    let command = read_body(alloc, body)?;
    let written = command_body(alloc, &command)?;
    if written.as_bytes() == body {
        Ok(command)
    } else {
        Err(LineFault::BadLine)
    }
}

/// Reads a line before its check. What is read is the command, if the line is that of one.
fn read_body(alloc: Global, body: &[u8]) -> Result<StoredCommand, LineFault>
    ensures may { IfOk result (λ command. MayBeStored (stored_of command)) }
    ensures reads { (stored : Stored) → MayBeStored stored → body.now ≡ body_of stored
        → ReadsAs result (λ command. stored_of command ≡ stored) }
    ensures check { result ≢ Err LineFault.BadCheck }
{
    let Some((verb, fields)) = split_field(body) else {
        return Err(LineFault::BadLine);
    };
    if verb == b"register".as_slice() {
        read_registration(alloc, fields)
    } else if verb == b"level".as_slice() {
        read_level(alloc, fields)
    } else {
        Err(LineFault::BadLine)
    }
}

/// Reads the fields of a registration.
fn read_registration(alloc: Global, fields: &[u8]) -> Result<StoredCommand, LineFault>
    ensures may { IfOk result (λ command. MayBeStored (stored_of command)) }
    ensures reads { (id : ℕ) (subject text : List ℕ) → MayBeStored (Registered id subject text)
        → fields.now ≡ decimal id ++ SPACE ∷ (word subject ++ SPACE ∷ readable text)
        → ReadsAs result (λ command. stored_of command ≡ Registered id subject text) }
    ensures check { result ≢ Err LineFault.BadCheck }
{
    let Some((id, rest)) = split_field(fields) else {
        return Err(LineFault::BadLine);
    };
    let Some((subject, text)) = split_field(rest) else {
        return Err(LineFault::BadLine);
    };
    let Some(id) = read_id(id) else {
        return Err(LineFault::BadLine);
    };
    let subject = read_text(alloc, subject)?;
    let text = read_text(alloc, text)?;
    Ok(StoredCommand::Registration { id, subject, text })
}

/// Reads the fields of a level.
fn read_level(alloc: Global, fields: &[u8]) -> Result<StoredCommand, LineFault>
    ensures may { IfOk result (λ command. MayBeStored (stored_of command)) }
    ensures reads { (subject : Option (List ℕ)) (level : List ℕ) → MayBeStored (LevelSet subject level)
        → fields.now ≡ subject_word subject ++ SPACE ∷ word level
        → ReadsAs result (λ command. stored_of command ≡ LevelSet subject level) }
    ensures check { result ≢ Err LineFault.BadCheck }
{
    let Some((subject, level)) = split_field(fields) else {
        return Err(LineFault::BadLine);
    };
    let subject = read_subject(alloc, subject)?;
    let level = read_text(alloc, level)?;
    Ok(StoredCommand::Level { subject, level })
}

/// Splits bytes at their first space; `None` where there is none.
fn split_field(bytes: &[u8]) -> Option<(&[u8], &[u8])>
    ensures { (field rest : List ℕ) → All (λ b. b ≢ SPACE) field → bytes.now ≡ field ++ SPACE ∷ rest
        → IsSomeAnd result (λ parts. (parts.0.now ≡ field) × (parts.1.now ≡ rest)) }
{
    for (at, byte) in bytes.iter().enumerate() {
        if *byte == SPACE {
            return Some((&bytes[..at], &bytes[at + 1..]));
        }
    }
    None
}

/// Reads an id in decimal.
fn read_id(digits: &[u8]) -> Option<u32>
    ensures fits { IfSome result (λ read. read < 2 ^ 32) }
    ensures reads { (id : ℕ) → id < 2 ^ 32 → digits.now ≡ decimal id → IsSomeAnd result (λ read. read ≡ id) }
{
    match str::from_utf8(digits) {
        Ok(text) => text.parse().ok(),
        Err(_) => None,
    }
}

/// Reads a percent-encoded field as text.
fn read_text(alloc: Global, field: &[u8]) -> Result<String, LineFault>
    ensures reads { (set : AsciiSet) (text : List ℕ) → contains set 37 ≡ true → IsUtf8 text
        → field.now ≡ percent_encode set text
        → ReadsAs result (λ read. string_bytes read ≡ text) }
    ensures check { result ≢ Err LineFault.BadCheck }
{
    let mut bytes = Vec::new(alloc);
    percent_decode(field).append_to(&mut bytes)?;
    match String::from_utf8(bytes) {
        Ok(text) => Ok(text),
        Err(_) => Err(LineFault::BadLine),
    }
}

/// Reads the subject of a level; `None` where it is the global level's `*`.
fn read_subject(alloc: Global, field: &[u8]) -> Result<Option<String>, LineFault>
    ensures is_text { IfOk result (λ read. IsSubject (option_map string_bytes read)) }
    ensures reads { (subject : Option (List ℕ)) → IsSubject subject → field.now ≡ subject_word subject
        → ReadsAs result (λ read. option_map string_bytes read ≡ subject) }
    ensures check { result ≢ Err LineFault.BadCheck }
{
    if field == b"*".as_slice() {
        return Ok(None);
    }
    Ok(Some(read_text(alloc, field)?))
}
