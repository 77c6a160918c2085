//! Statements with their numbers: the code.

ghost use Rattle.std.specs.Prelude.{◌≡◌, ◌+◌, ◌<◌, ◌≤◌, ◌∷◌, [], ℕ, List, length, IfOk, MatchOption};
ghost use Rattle.std.specs.Str.{bytes_eq};
ghost use Rattle.spec_avro.specs.Node.{Node};
ghost use Rattle.spec_avro.specs.declared.limits.TheConstants.{MOST_OUTPUT};
ghost use Rattle.spec_machine.specs.declared.instr.Instr.TheVariants as op;
ghost use Rattle.spec_machine.specs.Numbering.{code_from, jumps_of, maps_of, number, linked as instr_of};
ghost use Rattle.program_compiler.specs.Linking.{instr_with};
ghost use Rattle.program_compiler.specs.Tables.{AreDefaults};
ghost use Rattle.program_compiler.specs.Parts.{Links, LinksAll, LinksTo, Narrows};
ghost use Rattle.program_ir.specs.Statements.{statement_of, statements_in, bytes_of as bytes_of_constant};
ghost use Rattle.program_compiler.specs.Walking.{start_at};

use crate::addresses::{ahead, operand};
use crate::constants::bytes_of;
use crate::{CompileError, SectionStatements};
use avro_types::Nodes;
use isa::{Instr, MOST_INSTRS};
use program_ir::{Constant, Constants, Go, Misses, Statement};
use std::alloc::{AllocError, Global};
use std::collections::BTreeMap;

/// How many maps and jump tables the statements before have.
#[derive(Clone, Copy)]
struct Counts {
    maps: usize,
    jumps: usize,
}

/// What the statements refer to.
#[derive(Clone, Copy)]
pub(crate) struct Tables<'t> {
    pub(crate) section_statements: &'t SectionStatements,
    pub(crate) constants: &'t Constants,
    pub(crate) defaults: &'t BTreeMap<(usize, usize), usize>,
    pub(crate) misses: &'t Misses,
}

/// An instruction with a number.
#[derive(Clone, Copy)]
enum Numbered {
    Put,
    Miss,
    BytesText,
    Enum,
    Call,
    Branch,
    Go(Go),
}

impl Numbered {
    /// Returns the instruction with a number as its operand.
    fn with(self, number: u32) -> Instr
        ensures { result ≡ instr_with self number }
    {
        match self {
            Numbered::Put => Instr::Put(number),
            Numbered::Miss => Instr::Miss(number),
            Numbered::BytesText => Instr::BytesText(number),
            Numbered::Enum => Instr::Enum(number),
            Numbered::Call => Instr::Call(number),
            Numbered::Branch => Instr::Branch(number),
            Numbered::Go(Go::Next) => Instr::Next(number),
            Numbered::Go(Go::SkipNext) => Instr::SkipNext(number),
            Numbered::Go(Go::Jump) => Instr::Jump(number),
        }
    }
}

/// Returns the instruction with a number as its operand; `ProgramTooLarge` where there is no number of 32 bits.
fn of_number(kind: Numbered, number: Option<u32>) -> Result<Instr, CompileError>
    ensures { (constants : List (List ℕ)) (n : ℕ) → Narrows number n
        → LinksTo constants (instr_with kind n) result }
{
    match number {
        Some(number) => Ok(kind.with(number)),
        None => Err(CompileError::ProgramTooLarge),
    }
}

/// Returns the index of a constant; `None` where it has too many bytes. A default that was noted is not written again.
fn number_of(
    alloc: Global,
    r: &Nodes,
    tables: &Tables,
    constant: Constant,
) -> Result<Option<usize>, AllocError>
    requires { AreDefaults r.now tables.now.defaults.now tables.now.constants.now }
    ensures { IfOk result (λ o. MatchOption o (MOST_OUTPUT < length (bytes_of_constant r.now constant))
        (λ n. n ≡ number bytes_eq (bytes_of_constant r.now constant) tables.now.constants.now)) }
{
    if let Constant::Default { reader, field } = constant {
        if let Some(number) = tables.defaults.get(&(reader, field)).copied() {
            return Ok(Some(number));
        }
    }
    match bytes_of(alloc, r, constant)? {
        Some(bytes) => Ok(Some(tables.constants.number_of(&bytes))),
        None => Ok(None),
    }
}

/// Returns the instruction that puts a constant; `ProgramTooLarge` where the constant has too many bytes or its index
/// takes more than 32 bits.
fn putting(
    alloc: Global,
    r: &Nodes,
    tables: &Tables,
    constant: Constant,
) -> Result<Instr, CompileError>
    requires { AreDefaults r.now tables.now.defaults.now tables.now.constants.now }
    ensures { LinksTo (bytes_of_constant r.now constant ∷ [])
        (op.Put (number bytes_eq (bytes_of_constant r.now constant) tables.now.constants.now)) result }
{
    match number_of(alloc, r, tables, constant)? {
        Some(number) => of_number(Numbered::Put, operand(number)),
        None => Err(CompileError::ProgramTooLarge),
    }
}

/// Returns the instruction of the statement at `pc`; `ProgramTooLarge` where its operand takes more than 32 bits or
/// its constant has too many bytes.
fn linked(
    alloc: Global,
    r: &Nodes,
    tables: &Tables,
    pc: usize,
    counts: Counts,
    statement: &Statement,
) -> Result<Instr, CompileError>
    requires { AreDefaults r.now tables.now.defaults.now tables.now.constants.now }
    ensures { (W : List Node)
        → Links (statement_of W r.now statement.now) (instr_of (start_at tables.now.section_statements.now)
        tables.now.constants.now tables.now.misses.now pc counts.maps counts.jumps
        (statement_of W r.now statement.now)) result }
{
    match statement {
        Statement::Op(instr) => Ok(*instr),
        Statement::Put(constant) => putting(alloc, r, tables, *constant),
        Statement::Miss(miss) => of_number(Numbered::Miss, operand(tables.misses.number_of(*miss))),
        Statement::BytesText(miss) => {
            of_number(Numbered::BytesText, operand(tables.misses.number_of(*miss)))
        }
        Statement::Enum { .. } => of_number(Numbered::Enum, operand(counts.maps)),
        Statement::Call(section) => {
            of_number(
                Numbered::Call,
                operand(tables.section_statements.start_of(*section)),
            )
        }
        Statement::Ahead(go, far) => of_number(Numbered::Go(*go), ahead(pc, *far)),
        Statement::Back(far) => of_number(Numbered::Go(Go::Jump), operand(pc.saturating_sub(*far))),
        Statement::Branch(_) => of_number(Numbered::Branch, operand(counts.jumps)),
        Statement::Lost => Ok(Instr::Halt),
    }
}

/// Returns the counts after one statement more.
fn counted(counts: Counts, statement: &Statement) -> Counts
    requires maps { counts.maps < MOST_INSTRS }
    requires jumps { counts.jumps < MOST_INSTRS }
    ensures maps { (W R : List Node) → result.maps ≡ counts.maps + length (maps_of (statement_of W R statement.now)) }
    ensures jumps { (W R : List Node) (pc : ℕ) → result.jumps
        ≡ counts.jumps + length (jumps_of pc (statement_of W R statement.now)) }
    ensures more { (result.maps ≤ counts.maps + 1) × (result.jumps ≤ counts.jumps + 1) }
{
    match statement {
        Statement::Enum { .. } => Counts {
            maps: counts.maps + 1,
            jumps: counts.jumps,
        },
        Statement::Branch(_) => Counts {
            maps: counts.maps,
            jumps: counts.jumps + 1,
        },
        _ => counts,
    }
}

/// Returns the code of all statements, or the first error.
pub(crate) fn link(
    alloc: Global,
    reader: &Nodes,
    tables: &Tables,
) -> Result<Vec<Instr>, CompileError>
    requires few { length tables.now.section_statements.now.statements ≤ MOST_INSTRS }
    requires defaults { AreDefaults reader.now tables.now.defaults.now tables.now.constants.now }
    ensures { (W : List Node)
        → LinksAll (statements_in W reader.now tables.now.section_statements.now.statements)
        (code_from (start_at tables.now.section_statements.now) tables.now.constants.now tables.now.misses.now 0 0 0
        (statements_in W reader.now tables.now.section_statements.now.statements)) result }
{
    let statements = tables.section_statements.statements();
    let mut code = Vec::new(alloc);
    let mut counts = Counts { maps: 0, jumps: 0 };
    for pc in 0..statements.len() {
        let statement = &statements[pc];
        match linked(alloc, reader, tables, pc, counts, statement) {
            Ok(instr) => code.push(instr)?,
            Err(error) => return Err(error),
        }
        counts = counted(counts, statement);
    }
    Ok(code)
}
