//! Lines of `replay` that make a registry.

ghost use Rattle.std.specs.Prelude.{◌≡◌, ◌≤◌, ◌++◌, List, IfErr, IfOk, OnErr, Some, length};
ghost use Rattle.spec_lines.specs.Lines.{lines};
ghost use Rattle.spec_lines.specs.Reading.{replay_line};
ghost use Rattle.spec_registry.specs.Command.{Command as Asked};
ghost use Rattle.schema_registry.specs.Command.{command_of};
ghost use Rattle.store_commands.specs.Import.{AreBefore, Say, command_in, is_silent, said_in};

use command_io::{Request, read_replay_line, split_line};
use schema_registry::{Command, Keeper, KeptRegistry, Refusal};
use session_core::Event;
use std::alloc::{AllocError, Global};
use thiserror::Error;

/// What is wrong with a line that is not taken.
#[derive(Clone, Copy, Debug, PartialEq, Eq, Error)]
pub enum LineTrouble {
    /// It neither registers a schema nor sets a level.
    #[error("bad line")]
    BadLine,
    /// The registry refuses the command.
    #[error("refused {}", .0.name())]
    Refused(Refusal),
}

impl From<AllocError> for LineTrouble {
    fn from(_error: AllocError) -> LineTrouble {
        LineTrouble::Refused(Refusal::NoMemory)
    }
}

impl From<Refusal> for LineTrouble {
    fn from(refusal: Refusal) -> LineTrouble {
        LineTrouble::Refused(refusal)
    }
}

/// A line that is not taken.
#[derive(Clone, Copy, Debug, PartialEq, Eq, Error)]
#[error("line {number}: {trouble}")]
pub struct UntakenLine {
    /// Its number, from 1.
    pub number: usize,
    pub trouble: LineTrouble,
}

/// Returns the command that a line of `replay` says.
///
/// `BadLine` where it says none that changes a registry, `Refused` where the level has no name, or memory ran out.
fn command_in(alloc: Global, line: &[u8]) -> Result<Command, LineTrouble>
    ensures { IfOk result (λ command. command_in (replay_line line.now) ≡ Some (command_of command)) }
{
    match read_replay_line(alloc, line)? {
        Some(Request::Event(Event::Register { subject, text })) => {
            Ok(Command::Register { subject, text })
        }
        Some(Request::Event(Event::Level { subject, level })) => {
            Ok(Command::SetLevel { subject, level })
        }
        Some(Request::NoLevel(refusal)) => Err(LineTrouble::Refused(refusal)),
        _ => Err(LineTrouble::BadLine),
    }
}

/// Returns whether a line says nothing: it is empty, or begins with `#`.
fn is_silent(line: &[u8]) -> bool
    ensures { result ≡ is_silent line.now }
{
    match line.first() {
        Some(byte) => *byte == b'#',
        None => true,
    }
}

/// Executes what a line says, and returns how many commands it says: none or one.
fn import_line<K: Keeper>(
    alloc: Global,
    kept: &mut KeptRegistry<K>,
    line: &[u8],
) -> Result<usize, LineTrouble>
    ensures done { IfOk result (λ count. (said : List Asked) × (said_in line.now ≡ Some said) × (count ≡ length said)
        × (kept.new.registry ≡ kept.old.registry ++ said)) }
    ensures few { IfOk result (λ count. count ≤ 1) }
    ensures err { OnErr result (kept.new.registry ≡ kept.old.registry) }
{
    if is_silent(line) {
        return Ok(0);
    }
    kept.apply(command_in(alloc, line)?)?;
    Ok(1)
}

/// Executes what lines say, one after another, and returns how many commands they say. The error is the first line
/// that is not taken; then the commands of the lines before it are done.
pub fn import_lines<K: Keeper>(
    alloc: Global,
    kept: &mut KeptRegistry<K>,
    input: &[u8],
) -> Result<usize, UntakenLine>
    ensures done { IfOk result (λ count. (said : List Asked) × Say (lines input.now) said × (count ≡ length said)
        × (kept.new.registry ≡ kept.old.registry ++ said)) }
    ensures err { IfErr result (λ line. (said : List Asked) × AreBefore (lines input.now) line.number said
        × (kept.new.registry ≡ kept.old.registry ++ said)) }
{
    let mut rest = input;
    let mut number = 0;
    let mut count = 0;
    while let Some((line, later)) = split_line(rest) {
        number += 1;
        match import_line(alloc, kept, line) {
            Ok(said) => count += said,
            Err(trouble) => return Err(UntakenLine { number, trouble }),
        }
        rest = later;
    }
    Ok(count)
}
