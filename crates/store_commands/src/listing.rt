//! Commands of a store as lines of `replay`.

ghost use Rattle.std.specs.Prelude.{◌≡◌, ◌↔◌, ◌++◌, map, IfErr, IfOk, IsTrue, OnOk};
ghost use Rattle.std.specs.List.{AllByRecursion};
ghost use Rattle.std.specs.Option.{option_copied};
ghost use Rattle.registry_store.specs.Store.{commands_of};
ghost use Rattle.registry_store.specs.Stored.{LevelSet, Registered, stored_of};
ghost use Rattle.store_commands.specs.Cause.{HasListingCause};
ghost use Rattle.store_commands.specs.Listing.{HasNames, one_line_byte, replay_line, replay_lines};

use registry_store::StoredCommand;
use schema_registry::{is_subject, parse_level};
use std::alloc::{AllocError, Global};

/// Returns the byte that is written for a byte of a schema's text: a space for the end of a line, for which JSON has no
/// other use than a space.
fn one_line_byte(byte: u8) -> u8
    ensures { result ≡ one_line_byte byte }
{
    match byte {
        b'\n' | b'\r' => b' ',
        other => other,
    }
}

/// Appends a schema's text in one line.
fn push_text(output: &mut Vec<u8>, text: &[u8]) -> Result<(), AllocError>
    ensures { OnOk result (output.new.items ≡ output.old.items ++ map one_line_byte text.now) }
{
    for byte in text {
        output.push(one_line_byte(*byte))?;
    }
    Ok(())
}

/// Appends the line of `replay` of a registration, with its newline.
fn push_registration(output: &mut Vec<u8>, subject: &str, text: &str) -> Result<(), AllocError>
    ensures { OnOk result (output.new.items ≡ output.old.items ++ replay_line (Registered 0 subject.now text.now)) }
{
    output.extend_from_slice(b"register ")?;
    output.extend_from_slice(subject.as_bytes())?;
    output.push(b' ')?;
    push_text(output, text.as_bytes())?;
    output.push(b'\n')?;
    Ok(())
}

/// Appends the line of `replay` of a level that was set, with its newline; no subject is the global level.
fn push_level(output: &mut Vec<u8>, subject: Option<&str>, level: &str) -> Result<(), AllocError>
    ensures { OnOk result (output.new.items
        ≡ output.old.items ++ replay_line (LevelSet (option_copied subject.entry) level.now)) }
{
    output.extend_from_slice(b"level ")?;
    output.extend_from_slice(subject.unwrap_or("*").as_bytes())?;
    output.push(b' ')?;
    output.extend_from_slice(level.as_bytes())?;
    output.push(b'\n')?;
    Ok(())
}

/// Returns whether a registry may have accepted a command: its subject and its level have such names.
fn is_accepted(command: &StoredCommand) -> bool
    ensures { IsTrue result ↔ HasNames (stored_of command.now) }
{
    match command {
        StoredCommand::Registration { subject, .. } => is_subject(subject),
        StoredCommand::Level { subject, level } => {
            subject.as_deref().is_none_or(|subject| is_subject(subject))
                && parse_level(level).is_ok()
        }
    }
}

/// Appends the line of `replay` of a command, with its newline.
fn push_command(output: &mut Vec<u8>, command: &StoredCommand) -> Result<(), AllocError>
    ensures { OnOk result (output.new.items ≡ output.old.items ++ replay_line (stored_of command.now)) }
{
    match command {
        StoredCommand::Registration { subject, text, .. } => {
            push_registration(output, subject, text)
        }
        StoredCommand::Level { subject, level } => push_level(output, subject.as_deref(), level),
    }
}

/// Why commands have no lines of `replay`.
#[derive(Clone, Copy, Debug, PartialEq, Eq)]
pub(crate) enum ListingFault {
    NoMemory,
    /// The command with this number, from 1, is one that no registry accepts.
    NotAccepted { number: usize },
}

impl From<AllocError> for ListingFault {
    ghost use Rattle.store_commands.specs.declared.listing.ListingFault.TheVariants.{NoMemory};

    ghost from_gives = { λ _ fault. fault ≡ NoMemory };

    fn from(_error: AllocError) -> ListingFault {
        ListingFault::NoMemory
    }
}

/// Returns the lines of `replay` of commands, in their order.
pub(crate) fn listing_of(alloc: Global, commands: &[StoredCommand]) -> Result<Vec<u8>, ListingFault>
    ensures lines { IfOk result (λ output. output.items ≡ replay_lines (commands_of commands.now)) }
    ensures named { IfOk result (λ output. AllByRecursion HasNames (commands_of commands.now)) }
    ensures why { IfErr result (HasListingCause (commands_of commands.now)) }
{
    let mut output = Vec::new(alloc);
    for (at, command) in commands.iter().enumerate() {
        if !is_accepted(command) {
            return Err(ListingFault::NotAccepted { number: at + 1 });
        }
        push_command(&mut output, command)?;
    }
    Ok(output)
}
