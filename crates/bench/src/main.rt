//! Tests and bench; a program.
//!
//! Measures calls in process, as the scripts in `bench/` ask for it by its words. It ends with status 1 where something
//! else came.
//!
//! - `--passes N`, `--dump`: transcodes the messages of standard input N times, or once (`bench/transcoding.sh`).
//! - `assemble`, `load`: reads a program from standard input, a listing or an image, and prints how many instructions
//!   it has (`bench/programs.sh`).
//! - `registry COUNT FINDS`: registers COUNT schemas, and finds FINDS ids (`bench/registry.sh`).
#![tactic(auto)]

mod messages;
mod registry;
mod transcoding;

use std::io::{self, Read, Write};
use std::process::ExitCode;
use std::rt::{Clock, Env};
use std::sync::Wait;
use transcoding::Task;

/// What is to be measured.
#[derive(Drop)]
enum Asked {
    Transcoding(Task),
    Assembling,
    Loading,
    Registry { count: u32, finds: u32 },
}

/// Returns what the words of the command line ask for. `None` where they ask for nothing.
fn asked_of(words: &[String]) -> Option<Asked> {
    match (words.get(1)?.as_str(), words.get(2)) {
        ("--dump", None) => Some(Asked::Transcoding(Task::Dump)),
        ("--passes", Some(count)) => Some(Asked::Transcoding(Task::Passes(count.parse().ok()?))),
        ("assemble", None) => Some(Asked::Assembling),
        ("load", None) => Some(Asked::Loading),
        ("registry", Some(count)) => Some(Asked::Registry {
            count: count.parse().ok()?,
            finds: words.get(3)?.parse().ok()?,
        }),
        _ => None,
    }
}

/// Reads the whole input.
fn input(rt: &(impl Input + AllocGlobal)) -> Option<Vec<u8>> {
    let mut input = Vec::new(rt.alloc());
    rt.reader().read_to_end(&mut input).ok()?;
    Some(input)
}

/// Prints how many instructions a program has.
fn tell_len(rt: &impl Print, len: usize) -> Option<()> {
    println!(rt; "{len}").ok()
}

/// Measures what is asked, and prints the result.
fn obey<R: Input + Print + Eprint + Clock + Wait + AllocGlobal>(
    rt: &R,
    asked: &Asked,
) -> Option<()> {
    match asked {
        Asked::Transcoding(task) => {
            let output = transcoding::output_of(rt.alloc(), task, &input(rt)?)?;
            io::writer(rt).write_all(&output).ok()
        }
        Asked::Assembling => tell_len(rt, assembler::assemble(rt.alloc(), &input(rt)?).ok()?.len()),
        Asked::Loading => tell_len(rt, avro_loader::load(rt.alloc(), &input(rt)?).ok()?.len()),
        Asked::Registry { count, finds } => registry::measure(rt, *count, *finds),
    }
}

/// Returns the words of the command line.
fn words_of(rt: &(impl Env + AllocGlobal)) -> io::Result<Vec<String>> {
    let words = std::env::args(rt)?;
    Ok(words.collect(rt.alloc())?)
}

fn main(rt: HostRuntime) -> ExitCode {
    let Ok(words) = words_of(&rt) else {
        return ExitCode::from(1);
    };
    let done = match asked_of(&words) {
        Some(asked) => obey(&rt, &asked),
        None => None,
    };
    match done {
        Some(()) => ExitCode::from(0),
        None => ExitCode::from(1),
    }
}
