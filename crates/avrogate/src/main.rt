//! Edge; the program.
//!
//! Avro transcoding, from standard input to standard output or over HTTP, and what is kept of a schema registry.
#![tactic(auto)]

mod asking;
mod ending;
mod serving;
mod stores;
mod upstream;
mod words;

use crate::asking::{check, explain, list_nodes};
use crate::ending::status_of;
use crate::serving::serve;
use crate::stores::{export_store, import_store};
use crate::words::{refuse, task_in, words_of};
use command_line::Task;
use commands::{Status, Verb, run};
use std::net::{Net, TcpListener, TcpStream};
use std::process::ExitCode;
use std::rt::{Clock, Env};
use std::sync::Wait;
use std::thread::Threads;

/// Executes what the words ask for on the lines of standard input.
fn obey(rt: &(impl Input + Print + AllocGlobal), verb: &Verb) -> Status {
    let mut reader = rt.reader();
    let mut writer = std::io::writer(rt);
    status_of(run(rt.alloc(), verb, &mut reader, &mut writer))
}

/// Reads the words of the command line, and does what they ask for. Returns how the program ends. `host` opens files.
fn status<
    R: Net<Listener = TcpListener, Stream = TcpStream>
        + Threads
        + Wait
        + Clock
        + Sync
        + Env
        + Input
        + Print
        + Eprint
        + AllocGlobal,
>(rt: &R, host: &HostRuntime) -> Status {
    let words = match words_of(rt) {
        Ok(words) => words,
        Err(error) => return refuse(rt, &error),
    };
    match task_in(rt, words.as_slice()) {
        Ok(Task::Lines(verb)) => obey(rt, &verb),
        Ok(Task::Serve(words)) => serve(rt, host, &words).unwrap_or(Status::NoMemory),
        Ok(Task::Nodes) => list_nodes(rt),
        Ok(Task::Check(level)) => check(rt, level),
        Ok(Task::Explain(explanation)) => explain(rt, explanation),
        Ok(Task::Export) => export_store(rt),
        Ok(Task::Import(path)) => import_store(host, path),
        Err(status) => status,
    }
}

fn main(rt: HostRuntime) -> ExitCode {
    ExitCode::from(status(&rt, &rt).code())
}
