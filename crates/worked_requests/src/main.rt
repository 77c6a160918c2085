//! Tests and bench; a program.
//!
//! Answers requests, one after another, in memory and then over connections, and prints each answer.
//!
//! Standard input has parts. A line of `# ` and a title begins one, with a new registry, and is printed as it is.
//! Each further line that is not empty is a request, and a line is printed for its answer.
//!
//! `METHOD PATH` is a request without a body, and `METHOD PATH BODY` one whose body is the rest of the line and whose
//! head says its length; where the body begins with `=`, the rest of it is hexadecimal. `raw TEXT` is a request as it
//! is, where `\r`, `\n`, `\\` and `\xff` are escapes of bytes. In all of these, between backticks, `3*ab` is
//! `ababab`, with 1, 2 and 3 in place of `%`. A raw request ends, where one of the other form could go on and must be
//! answered without a look at what follows; so must a raw one after `open `.
//!
//! An answer is printed as its status and its body, a message in hexadecimal after `=`, where 1,000 and more equal
//! bytes in a row are `1000*78` between backticks. After `whole ` the request has its whole answer printed, in the
//! notation of raw requests.
//!
//! Each request is answered in many manners: whole, a byte at a time, by devices that are interrupted, and by devices
//! that fail at their first call, at their second, and so on; after `once `, for answers that take long, whole alone.
//! What differs from the answer that was printed, or does not report the failure, is printed on a line of `DIFFERS`.
//! At the end of a part its requests are sent over connections, each in one, to a server of two clients and a new
//! registry. How many it answered is printed, and each answer that differs or ends with a reset.
#![tactic(auto)]

mod calls;
mod connections;
mod devices;
mod manners;
mod part;
mod printing;
mod row;
mod service;
mod text;

use crate::part::{Part, parts_of, push_part};
use gateway_server::RunError;
use std::alloc::Global;
use std::io::{Read, Write};
use std::net::{Net, TcpListener, TcpStream};
use std::process::ExitCode;
use std::sync::Wait;
use std::thread::Threads;
use std::time::Clock;

/// Returns what is printed for the parts of a text.
fn written<R: Net<Listener = TcpListener, Stream = TcpStream> + Threads + Wait + Clock + Sync>(
    rt: &R,
    alloc: Global,
    text: &str,
) -> Result<Vec<u8>, RunError> {
    let parts: Vec<Part> = parts_of(alloc, text)?;
    let mut output = Vec::new(alloc);
    for part in parts.iter() {
        push_part(rt, alloc, &mut output, part)?;
    }
    Ok(output)
}

/// Reads the requests, and prints their answers.
fn answer<
    R: Net<Listener = TcpListener, Stream = TcpStream>
        + Threads
        + Wait
        + Clock
        + Sync
        + Input
        + Print
        + AllocGlobal,
>(rt: &R) -> Result<(), RunError> {
    let mut text = String::new(rt.alloc());
    rt.reader()
        .read_to_string(&mut text)
        .map_err(|_| RunError::Read)?;
    let output = written(rt, rt.alloc(), &text)?;
    std::io::writer(rt)
        .write_all(&output)
        .map_err(|_| RunError::Write)
}

fn main(rt: HostRuntime) -> ExitCode {
    match answer(&rt) {
        Ok(()) => ExitCode::from(0),
        Err(_) => ExitCode::from(1),
    }
}
