//! Lines as a person reads them, with checks that `sha256sum` gave.

use crate::same::same;
use registry_store::{LineFault, StoredCommand, level_line, parse, registration_line};
use std::alloc::{AllocError, Global};

const RECORD: &str = r#"{"type":"record","name":"Order","fields":[{"name":"id","type":"long"}]}"#;

const RECORD_LINE: &str =
    r#"register 1 orders {"type":"record","name":"Order","fields":[{"name":"id","type":"long"}]} b40d8a6f924a9af0"#;

const ESCAPED_LINE: &str = r#"register 7 a%20%2A%25 "a\b"%25%0A%C3%BC 72a1d9b97630b886"#;

const GLOBAL_LINE: &str = "level * FULL 4026cada239cc4ff";

/// Returns whether a line is written, and is this one.
fn is_line(line: Result<Vec<u8>, AllocError>, wanted: &str) -> bool {
    match line {
        Ok(line) => line.as_slice() == wanted.as_bytes(),
        Err(_) => false,
    }
}

/// Returns whether registrations are written as they have to be.
fn registrations_are_written(alloc: Global) -> bool {
    let record = registration_line(alloc, 1, "orders", RECORD);
    let mut right = is_line(record, RECORD_LINE);
    let escaped = registration_line(alloc, 7, "a *%", "\"a\\b\"%\nü");
    right &= is_line(escaped, ESCAPED_LINE);
    right
}

/// Returns whether levels are written as they have to be.
fn levels_are_written(alloc: Global) -> bool {
    let global = level_line(alloc, None, "FULL");
    let mut right = is_line(global, GLOBAL_LINE);
    let subject = level_line(alloc, Some("*"), "NONE");
    right &= is_line(subject, "level %2A NONE b7f97e69baac46f9");
    right
}

#[test]
fn writes_lines(rt: HostRuntime) {
    assert!(rt; registrations_are_written(rt.alloc()));
    assert!(rt; levels_are_written(rt.alloc()));
}

/// Appends what a line is read as.
fn push_reading(alloc: Global, text: &mut String, line: &str) -> Result<(), AllocError> {
    match parse(alloc, line.as_bytes()) {
        Ok(
            StoredCommand::Registration {
                id,
                subject,
                text: schema,
            },
        ) => write!(text, "{id} <{subject}> <{schema}>\n"),
        Ok(StoredCommand::Level { subject, level }) => match subject {
            Some(subject) => write!(text, "<{subject}> {level}\n"),
            None => write!(text, "global {level}\n"),
        },
        Err(fault) => write!(text, "{fault}\n"),
    }
}

/// Returns what each of some lines is read as.
fn readings_of(alloc: Global, lines: &str) -> Result<String, AllocError> {
    let mut text = String::new(alloc);
    for line in lines.lines() {
        push_reading(alloc, &mut text, line)?;
    }
    Ok(text)
}

/// Lines of commands.
const LINES: &str =
    r#"register 1 orders {"type":"record","name":"Order","fields":[{"name":"id","type":"long"}]} b40d8a6f924a9af0
register 7 a%20%2A%25 "a\b"%25%0A%C3%BC 72a1d9b97630b886
register 4294967295 orders "int" f442758bf2299d10
register 1 orders  5cd3e5193e347e02
level * FULL 4026cada239cc4ff
level %2A NONE b7f97e69baac46f9
level a%20%2A NONE 1714d462909ae6ef"#;

/// What they are read as. The second has a newline in its text.
const READ: &str =
    r#"1 <orders> <{"type":"record","name":"Order","fields":[{"name":"id","type":"long"}]}>
7 <a *%> <"a\b"%
ü>
4294967295 <orders> <"int">
1 <orders> <>
global FULL
<*> NONE
<a *> NONE
"#;

#[test]
fn reads_lines(rt: HostRuntime) -> Result<(), AllocError> {
    let read = readings_of(rt.alloc(), LINES)?;
    same(&rt, read.as_str(), READ);
    Ok(())
}

/// Returns whether a line is read that has another byte at this offset.
fn is_read_with(alloc: Global, line: &[u8], at: usize, byte: u8) -> bool {
    let Ok(mut changed) = Vec::from_slice(alloc, line) else {
        return true;
    };
    if at >= changed.len() || changed[at] == byte {
        return false;
    }
    changed[at] = byte;
    parse(alloc, &changed).is_ok()
}

/// Returns whether a line is read that ends at this offset, or has another byte there.
fn is_read_otherwise(alloc: Global, line: &[u8], at: usize) -> bool {
    let mut is_read = match line.get(..at) {
        Some(front) => parse(alloc, front).is_ok(),
        None => true,
    };
    for byte in 0..=255 {
        is_read |= is_read_with(alloc, line, at, byte);
    }
    is_read
}

/// Returns whether a line is read, and none that differs from it in a byte, and none of its fronts.
fn is_read_alone(alloc: Global, line: &[u8]) -> bool {
    let mut right = parse(alloc, line).is_ok();
    for at in 0..line.len() {
        right &= !is_read_otherwise(alloc, line, at);
    }
    right
}

#[test]
fn finds_each_changed_byte(rt: HostRuntime) {
    let alloc = rt.alloc();
    assert!(rt; is_read_alone(alloc, b"register 12 a%20b \"int\" 950fd821b3c37766"));
    assert!(rt; is_read_alone(alloc, GLOBAL_LINE.as_bytes()));
}

/// Lines whose check is right, and which no command has.
const NO_COMMANDS: &str = r#"register 01 orders "int" fd935e355cdccb80
register +1 orders "int" 91c6482b14a92559
register -1 orders "int" b9a47ca630112250
register 4294967296 orders "int" da8e82b8c63bdd70
register  orders "int" fdfbffab251f1e1e
register 1 orders 74ae4093cb1f2607
register 1 or%64ers "int" 7169d9ee4f1ba2d4
register 1 a%2ab "int" 57bf124bb15589fd
register 1 * "int" c6f8632f4f2e5eb3
register 1 orders "%C3" c7663915508fd4e3
register 1 orders % 4f7a53ada3283aee
register 1 orders "ü" f071640b105b1e92
level * FULL  2ef805be65bd68b3
level * 05d733d1538ba575
level ** 3b86cc99aab33efa
level * FU*LL 668057bf18e1257d
levels * FULL 727a9868f1d3cb78
 e3b0c44298fc1c14"#;

/// Lines of that kind with a newline, and with a byte that is written as an escape.
const UNESCAPED: [&str; 2] = [
    "register 1 orders a\nb 41c3f6dfa0ab9375",
    "register 1 orders a\x7fb ada08b21cabb94b8",
];

/// Lines whose check is missing or wrong.
const BAD_CHECKS: [&str; 4] = [
    "",
    "level * FULL",
    "level * FULL 4026CADA239CC4FF",
    "level * FULL  026cada239cc4ff",
];

/// Appends a line that is read, or is refused by another fault than this one.
fn push_other(
    alloc: Global,
    text: &mut String,
    line: &str,
    fault: LineFault,
) -> Result<(), AllocError> {
    if parse(alloc, line.as_bytes()).err() == Some(fault) {
        return Ok(());
    }
    write!(text, "{line}\n")
}

/// Returns those of the lines above that are not refused as they have to be.
fn misjudged(alloc: Global) -> Result<String, AllocError> {
    let mut text = String::new(alloc);
    for line in NO_COMMANDS.lines() {
        push_other(alloc, &mut text, line, LineFault::BadLine)?;
    }
    for line in UNESCAPED {
        push_other(alloc, &mut text, line, LineFault::BadLine)?;
    }
    for line in BAD_CHECKS {
        push_other(alloc, &mut text, line, LineFault::BadCheck)?;
    }
    Ok(text)
}

#[test]
fn refuses_what_no_command_has(rt: HostRuntime) -> Result<(), AllocError> {
    let misjudged = misjudged(rt.alloc())?;
    same(&rt, misjudged.as_str(), "");
    Ok(())
}
