//! What a shared registry answers to rows: lines, each followed by the line of its answer. A line is a command, or
//! `find` with an id for the text under it, or `receipt` with a text for what its receipt shows.

ghost use Rattle.std.specs.Prelude.{◌≡◌, ◌<◌, IfOk};
ghost use Rattle.spec_registry.specs.Receipt.{IsReceiptOf};

use crate::registry::lines::{answer_line, command_of, reply_line, second_answer};
use schema_registry::{Receipt, Refusal, SharedRegistry};
use std::alloc::{AllocError, Global};
use std::fmt::Write;
use std::sync::Wait;

/// Registers a text.
pub(crate) fn register<R: Wait>(
    rt: &R,
    alloc: Global,
    shared: &SharedRegistry,
    text: &str,
) -> Result<Receipt, Refusal>
    ensures { IfOk result (IsReceiptOf shared.now) }
{
    let subject = String::from_str(alloc, "s")?;
    let (_id, receipt) = shared.register(rt, subject, String::from_str(alloc, text)?)?;
    Ok(receipt)
}

/// Returns the text that is shown under an id, or `none`.
pub(crate) fn found(shared: &SharedRegistry, id: u32) -> &str {
    match shared.find(id) {
        Some((schema, _)) => schema.text(),
        None => "none",
    }
}

/// Returns the text that a receipt shows, which agrees with one of its id that is found.
pub(crate) fn shown<'a>(shared: &'a SharedRegistry, receipt: &mut Receipt) -> &'a str
    requires { IsReceiptOf shared.now receipt.old }
{
    if let Some((_, mut other)) = shared.find(receipt.id()) {
        shared.agree(receipt, &mut other);
    }
    shared.schema(receipt).text()
}

/// Registers a text, and returns the id with the text that its receipt shows.
fn registered<R: Wait>(
    rt: &R,
    alloc: Global,
    shared: &SharedRegistry,
    text: &str,
) -> Result<String, Refusal> {
    let mut receipt = register(rt, alloc, shared, text)?;
    let id = receipt.id();
    let text = shown(shared, &mut receipt);
    Ok(format!(in alloc; "{id} {text}")?)
}

/// Returns what a shared registry replies to a line.
fn reply_to<R: Wait>(
    rt: &R,
    alloc: Global,
    shared: &SharedRegistry,
    line: &str,
) -> Result<String, Refusal> {
    if let Some(word) = line.strip_prefix("find ") {
        let id = word.parse::<u32>().unwrap_or(0);
        return Ok(String::from_str(alloc, found(shared, id))?);
    }
    if let Some(text) = line.strip_prefix("receipt ") {
        return registered(rt, alloc, shared, text);
    }
    let reply = shared.apply(rt, command_of(alloc, line)?)?;
    Ok(reply_line(alloc, reply)?)
}

/// Returns what a shared registry answers to a line. Where it has no memory it is asked once more.
pub(crate) fn answer_to<R: Wait>(
    rt: &R,
    alloc: Global,
    shared: &SharedRegistry,
    line: &str,
) -> Result<String, AllocError> {
    match answer_line(alloc, reply_to(rt, alloc, shared, line)) {
        Err(_) => second_answer(alloc, answer_line(alloc, reply_to(rt, alloc, shared, line))),
        answer => answer,
    }
}

/// Returns every `step`th line of some rows, from the first on, each followed by the answer of a shared registry.
pub(crate) fn answered_by<R: Wait>(
    rt: &R,
    alloc: Global,
    shared: &SharedRegistry,
    rows: &str,
    step: usize,
) -> Result<String, AllocError>
    requires { 0 < step }
{
    let mut answered = String::new(alloc);
    for line in rows.lines().step_by(step) {
        let answer = answer_to(rt, alloc, shared, line)?;
        write!(answered, "{line}\n{answer}\n")?;
    }
    Ok(answered)
}

/// Returns rows after others, which are repeated for each number from 1 to a count, with the number in place of `#`.
pub(crate) fn rows_after(
    alloc: Global,
    numbered_rows: &str,
    count: usize,
    rows: &str,
) -> Result<String, AllocError> {
    let mut all = String::new(alloc);
    for number in 1..=count {
        let word = format!(in alloc; "{number}")?;
        all.push_str(&numbered_rows.replace(alloc, '#', &word)?)?;
    }
    all.push_str(rows)?;
    Ok(all)
}
