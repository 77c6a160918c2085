//! Addresses of statements, and the jump tables.

ghost use Rattle.std.specs.Prelude.{◌≡◌, ◌+◌, ◌++◌, List, map, IfOk, MatchOption};
ghost use Rattle.spec_avro.specs.Node.{Node};
ghost use Rattle.spec_machine.specs.Numbering.{jumps_from, jumps_of};
ghost use Rattle.program_compiler.specs.Parts.{AreWide, IsWide, Narrows};
ghost use Rattle.program_ir.specs.Statements.{statement_of, statements_in};

use isa::Lists;
use program_ir::Statement;
use std::alloc::{AllocError, Global};

/// Returns a number as an operand; `None` where it takes more than 32 bits.
pub(crate) fn operand(number: usize) -> Option<u32>
    ensures { Narrows result number }
{
    u32::try_from(number).ok()
}

/// Returns the address `far` instructions after `pc`; `None` where it takes more than 32 bits.
pub(crate) fn ahead(pc: usize, far: usize) -> Option<u32>
    ensures { Narrows result (pc + far) }
{
    match pc.checked_add(far) {
        Some(address) => operand(address),
        None => None,
    }
}

/// Returns the addresses at these distances after `pc`; `None` where one takes more than 32 bits.
fn all_ahead(alloc: Global, pc: usize, fars: &[usize]) -> Result<Option<Vec<u32>>, AllocError>
    ensures { IfOk result
        (λ o. MatchOption o (IsWide (map (λ far. pc + far) fars.now)) (λ v. v.items ≡ map (λ far. pc + far) fars.now)) }
{
    let mut addresses = Vec::new(alloc);
    for index in 0..fars.len() {
        match ahead(pc, fars[index]) {
            Some(address) => addresses.push(address)?,
            None => return Ok(None),
        }
    }
    Ok(Some(addresses))
}

/// Returns jump tables with that of the statement at `pc` added, if it has one; `None` where an address takes more
/// than 32 bits.
fn noted(
    alloc: Global,
    jumps: Lists<u32>,
    pc: usize,
    statement: &Statement,
) -> Result<Option<Lists<u32>>, AllocError>
    ensures { IfOk result
        (λ o. (W R : List Node) → MatchOption o (AreWide (jumps_of pc (statement_of W R statement.now)))
        (λ more. more ≡ jumps ++ jumps_of pc (statement_of W R statement.now))) }
{
    match statement {
        Statement::Branch(fars) => match all_ahead(alloc, pc, fars)? {
            Some(addresses) => {
                let mut more = jumps;
                more.push(addresses.as_slice())?;
                Ok(Some(more))
            }
            None => Ok(None),
        },
        _ => Ok(Some(jumps)),
    }
}

/// Returns the jump tables of statements; `None` where an address takes more than 32 bits.
pub(crate) fn gather_jumps(
    alloc: Global,
    statements: &[Statement],
) -> Result<Option<Lists<u32>>, AllocError>
    ensures { IfOk result
        (λ o. (W R : List Node) → MatchOption o (AreWide (jumps_from 0 (statements_in W R statements.now)))
        (λ jumps. jumps ≡ jumps_from 0 (statements_in W R statements.now))) }
{
    let mut jumps = Lists::new(alloc);
    for pc in 0..statements.len() {
        match noted(alloc, jumps, pc, &statements[pc])? {
            Some(more) => jumps = more,
            None => return Ok(None),
        }
    }
    Ok(Some(jumps))
}
