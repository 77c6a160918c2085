//! Putting the program of all sections together.

ghost use Rattle.std.specs.Prelude.{◌≡◌, ◌≤◌, List, length, true};
ghost use Rattle.spec_avro.specs.Node.{Node};
ghost use Rattle.spec_machine.specs.Numbering.{constants_in, misses_in, numbered};
ghost use Rattle.spec_machine.specs.Code.{are_whole as are_whole_statements, is_lost as is_lost_statement};
ghost use Rattle.program_compiler.specs.Parts.{Assembles, LinksTables};
ghost use Rattle.program_compiler.specs.Tables.{AreDefaults};
ghost use Rattle.program_ir.specs.Statements.{statement_of, statements_in};
ghost use Rattle.program_compiler.specs.Walking.{start_at};

use crate::addresses::gather_jumps;
use crate::constants::gather_constants;
use crate::linking::{Tables, link};
use crate::maps::gather_maps;
use crate::misses::gather_misses;
use crate::{CompileError, SectionStatements};
use avro_types::Nodes;
use isa::{Entry, Instr, Lists, MOST_INSTRS, MOST_TABLES, Parts};
use program_ir::{Constants, Statement};
use std::alloc::Global;
use std::collections::BTreeMap;

/// Returns whether there is no code for a statement.
fn is_lost(statement: &Statement) -> bool
    ensures { (W R : List Node) → result ≡ is_lost_statement (statement_of W R statement.now) }
{
    match statement {
        Statement::Lost => true,
        _ => false,
    }
}

/// Returns whether there is code for each statement.
fn are_whole(statements: &[Statement]) -> bool
    ensures { (W R : List Node) → result ≡ are_whole_statements (statements_in W R statements.now) }
{
    for statement in statements {
        if is_lost(statement) {
            return false;
        }
    }
    true
}

/// Returns the code, the maps and the jump tables of the program of all sections, which refer to these constants and
/// misses.
fn linked_tables(
    alloc: Global,
    w: &Nodes,
    r: &Nodes,
    tables: &Tables,
) -> Result<(Vec<Instr>, Lists<Entry>, Lists<u32>), CompileError>
    requires few { length tables.now.section_statements.now.statements ≤ MOST_INSTRS }
    requires defaults { AreDefaults r.now tables.now.defaults.now tables.now.constants.now }
    requires constants { tables.now.constants.now
        ≡ constants_in (statements_in w.now r.now tables.now.section_statements.now.statements) }
    requires misses { tables.now.misses.now
        ≡ misses_in (statements_in w.now r.now tables.now.section_statements.now.statements) }
    ensures { LinksTables (statements_in w.now r.now tables.now.section_statements.now.statements)
        (numbered (start_at tables.now.section_statements.now)
        (statements_in w.now r.now tables.now.section_statements.now.statements)) result }
{
    let statements = tables.section_statements.statements();
    if tables.misses.len() > MOST_TABLES {
        return Err(CompileError::ProgramTooLarge);
    }
    let maps = gather_maps(alloc, w, r, tables.misses, statements)?;
    let Some(jumps) = gather_jumps(alloc, statements)? else {
        return Err(CompileError::ProgramTooLarge);
    };
    match link(alloc, r, tables) {
        Ok(code) => Ok((code, maps, jumps)),
        Err(error) => Err(error),
    }
}

/// Returns the parts of the program of all sections, whose statements refer to these constants.
fn parts_with_constants(
    alloc: Global,
    w: &Nodes,
    r: &Nodes,
    section_statements: &SectionStatements,
    defaults: &BTreeMap<(usize, usize), usize>,
    constants: Constants,
) -> Result<Parts, CompileError>
    requires few { length section_statements.now.statements ≤ MOST_INSTRS }
    requires whole { are_whole_statements (statements_in w.now r.now section_statements.now.statements) ≡ true }
    requires defaults { AreDefaults r.now defaults.now constants }
    requires constants { constants ≡ constants_in (statements_in w.now r.now section_statements.now.statements) }
    ensures { Assembles (statements_in w.now r.now section_statements.now.statements)
        (numbered (start_at section_statements.now) (statements_in w.now r.now section_statements.now.statements))
        result }
{
    let misses = gather_misses(alloc, w, r, section_statements.statements())?;
    let tables = Tables {
        section_statements,
        constants: &constants,
        defaults,
        misses: &misses,
    };
    match linked_tables(alloc, w, r, &tables) {
        Ok((code, maps, jumps)) => Ok(Parts {
            code,
            constants: constants.into_list(),
            maps,
            jumps,
            misses: misses.into_list(),
        }),
        Err(error) => Err(error),
    }
}

/// Returns the parts of the program of all sections. `ProgramTooLarge` where it passes a limit or a statement has no
/// code.
pub(crate) fn parts_of_statements(
    alloc: Global,
    writer: &Nodes,
    reader: &Nodes,
    section_statements: &SectionStatements,
) -> Result<Parts, CompileError>
    ensures { Assembles (statements_in writer.now reader.now section_statements.now.statements)
        (numbered (start_at section_statements.now)
        (statements_in writer.now reader.now section_statements.now.statements)) result }
{
    let statements = section_statements.statements();
    if statements.len() > MOST_INSTRS {
        return Err(CompileError::ProgramTooLarge);
    }
    if !are_whole(statements) {
        return Err(CompileError::ProgramTooLarge);
    }
    let mut defaults = BTreeMap::new(alloc);
    let Some(constants) = gather_constants(alloc, &mut defaults, reader, statements)? else {
        return Err(CompileError::ProgramTooLarge);
    };
    parts_with_constants(
        alloc,
        writer,
        reader,
        section_statements,
        &defaults,
        constants,
    )
}
