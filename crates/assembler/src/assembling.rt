//! Reading a listing line by line into a program, or its first fault.

ghost use Rattle.std.specs.Prelude.{◌≡◌, IfOk, Ok};
ghost use Rattle.spec_machine.specs.Program.{Program as Parted};
ghost use Rattle.spec_machine.specs.Range.{IsProgram};
ghost use Rattle.assembler.specs.Assembling.{Gives};
ghost use Rattle.spec_machine.specs.Assembling.{assembled, nothing, with_header, with_lines};
ghost use Rattle.assembler.specs.Listing.{HasBytes};
ghost use Rattle.spec_machine.specs.Listing.{listing_of};
ghost use Rattle.spec_machine.specs.ListingWords.{parts};

use crate::draft::{Draft, fault};
use crate::{is_text, split_line};
use isa::Program;
use spec_machine::{AsmError, AsmErrorKind};
use std::alloc::Global;

/// Takes the lines after the header into the draft, up to the first fault.
fn take_lines(draft: &mut Draft, alloc: Global, text: &[u8]) -> Result<(), AsmError>
    requires { draft.old ≡ nothing }
    ensures { Gives (λ _. draft.new) result (with_lines 2 nothing (parts 10 text.now)) }
{
    let mut rest = text;
    let mut at = 2;
    while let Some((line, after)) = split_line(rest) {
        draft.take(alloc, at, line)?;
        rest = after;
        at += 1;
    }
    if !rest.is_empty() {
        return Err(fault(AsmErrorKind::BadLine, at));
    }
    Ok(())
}

/// Takes a whole listing into the draft, up to the first fault.
#[tactic(auto, unfolding(spec_machine::specs::Assembling::with_header))]
fn take_listing(draft: &mut Draft, alloc: Global, text: &[u8]) -> Result<(), AsmError>
    requires { draft.old ≡ nothing }
    ensures { Gives (λ _. draft.new) result (with_header (parts 10 text.now)) }
{
    let (header, lines) = match split_line(text) {
        Some(parts) => parts,
        None if is_text(text, "avro program 1") => return Err(fault(AsmErrorKind::BadLine, 1)),
        None => return Err(fault(AsmErrorKind::BadHeader, 1)),
    };
    if !is_text(header, "avro program 1") {
        return Err(fault(AsmErrorKind::BadHeader, 1));
    }
    take_lines(draft, alloc, lines)
}

/// Returns the program that a text lists, or the first fault.
#[tactic(auto, unfolding(spec_machine::specs::Assembling::assembled))]
fn assemble_whole(alloc: Global, text: &[u8]) -> Result<Program, AsmError>
    ensures { Gives (λ x. x) result (assembled text.now) }
{
    let mut draft = Draft::new(alloc);
    take_listing(&mut draft, alloc, text)?;
    draft.judge()
}

/// Returns the program whose listing a text is, or the first fault.
pub fn assemble(alloc: Global, text: &[u8]) -> Result<Program, AsmError>
    // What is assembled has this text as its listing.
    ensures found { IfOk result (λ P. text.now ≡ listing_of P) }
    // The listing of a program is assembled, unless memory runs out.
    ensures only { (P : Parted) → IsProgram P → HasBytes P → text.now ≡ listing_of P
        → Gives (λ x. x) result (Ok P) }
    // Which fault it is.
    ensures exact { Gives (λ x. x) result (assembled text.now) }
{
    assemble_whole(alloc, text)
}
