//! Commands and replies as lines, as the rows have them.

use schema_registry::{Command, Refusal, Reply, Version, parse_level};
use std::alloc::{AllocError, Global};

/// Returns the subject that a word names, which is `None` for `*`.
fn subject_of(alloc: Global, word: &str) -> Result<Option<String>, AllocError> {
    if word == "*" {
        return Ok(None);
    }
    Ok(Some(String::from_str(alloc, word)?))
}

/// Returns the version that a word names.
fn version_of(word: &str) -> Result<Version, Refusal> {
    if word == "latest" {
        return Ok(Version::Latest);
    }
    match word.parse::<u32>() {
        Ok(number) => Ok(Version::Number(number)),
        Err(_) => Err(Refusal::BadVersion),
    }
}

/// Returns the command about a subject.
fn about_subject(alloc: Global, verb: &str, word: &str, rest: &str) -> Result<Command, Refusal> {
    let subject = String::from_str(alloc, word)?;
    let text = String::from_str(alloc, rest)?;
    match verb {
        "register" => Ok(Command::Register { subject, text }),
        "lookup" => Ok(Command::Lookup { subject, text }),
        "versions" => Ok(Command::Versions { subject }),
        _ => Ok(Command::Version {
            subject,
            version: version_of(rest)?,
        }),
    }
}

/// Returns the command to check a text against a version.
fn check(alloc: Global, word: &str, rest: &str) -> Result<Command, Refusal> {
    let (version, text) = rest.split_once(' ').unwrap_or((rest, ""));
    Ok(Command::Check {
        subject: String::from_str(alloc, word)?,
        version: version_of(version)?,
        text: String::from_str(alloc, text)?,
    })
}

/// Returns the command of a line.
pub(crate) fn command_of(alloc: Global, line: &str) -> Result<Command, Refusal> {
    let (verb, words) = line.split_once(' ').unwrap_or((line, ""));
    let (word, rest) = words.split_once(' ').unwrap_or((words, ""));
    match verb {
        "set" => Ok(Command::SetLevel {
            subject: subject_of(alloc, word)?,
            level: parse_level(rest)?,
        }),
        "check" => check(alloc, word, rest),
        "subjects" => Ok(Command::Subjects),
        "schema" => Ok(Command::Schema {
            id: word.parse::<u32>().unwrap_or(0),
        }),
        "level" => Ok(Command::Level {
            subject: subject_of(alloc, word)?,
        }),
        _ => about_subject(alloc, verb, word, rest),
    }
}

/// Returns a reply as a line.
pub(crate) fn reply_line(alloc: Global, reply: Reply) -> Result<String, AllocError> {
    match reply {
        Reply::Id(id) => format!(in alloc; "id {id}"),
        Reply::Entry {
            subject,
            version,
            id,
            text,
        } => format!(in alloc; "entry {subject} {version} {id} {text}"),
        Reply::Compatible(yes) => format!(in alloc; "compatible {yes}"),
        Reply::Numbers(numbers) => format!(in alloc; "numbers {numbers:?}"),
        Reply::Names(names) => format!(in alloc; "names {names:?}"),
        Reply::Text(text) => format!(in alloc; "text {text}"),
        Reply::LevelIs(level) => String::from_str(alloc, level.name()),
    }
}

/// Returns a reply or a refusal as a line. The error is that memory ran out.
pub(crate) fn answer_line(
    alloc: Global,
    reply: Result<String, Refusal>,
) -> Result<String, AllocError> {
    match reply {
        Ok(line) => Ok(line),
        Err(Refusal::NoMemory) => Err(AllocError),
        Err(Refusal::BadSchema(fault)) => {
            let name = fault.name();
            format!(in alloc; "refused BadSchema {name}")
        }
        Err(refusal) => {
            let name = refusal.name();
            format!(in alloc; "refused {name}")
        }
    }
}

/// Returns the answer of a registry that is asked once more, where memory ran out the first time.
pub(crate) fn second_answer(
    alloc: Global,
    answer: Result<String, AllocError>,
) -> Result<String, AllocError> {
    match answer {
        Err(_) => String::from_str(alloc, "no memory twice"),
        answer => answer,
    }
}
