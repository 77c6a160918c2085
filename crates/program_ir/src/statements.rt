//! Statements of the intermediate representation, and how they make loops, branches, records and routines.

ghost use Rattle.std.specs.Prelude.{◌≡◌, ◌++◌, ◌∷◌, ◌<◌, List, [], IfSome, OnOk, length, slice_get};
ghost use Rattle.spec_avro.specs.Node.{Node};
ghost use Rattle.spec_machine.specs.Statements.{branched, looped, miss};
ghost use Rattle.program_ir.specs.Statements.{HasSlot, go_of, jump_statements, statement_of, statements_in, parts_in, record_statement, routine_statements, slot_statements};

use avro_bytes::{Mismatch, MismatchKind};
use isa::Instr;
use resolver::Route;
use std::alloc::{AllocError, Global};

/// A part of the code.
#[derive(Clone, Copy)]
pub enum Section {
    /// The code of both roots, and the end of the run.
    Main,
    /// The routine of a writer's record and a reader's.
    Write(usize, usize),
    /// The routine that skips a writer's record.
    Skip(usize),
}

/// What jumps ahead.
#[derive(Clone, Copy)]
pub enum Go {
    Next,
    SkipNext,
    Jump,
}

/// Bytes that are put, described by where they come from.
#[derive(Clone, Copy)]
pub enum Constant {
    /// The encoding of a branch's position.
    Position(u32),
    /// The written default of a field of a reader's record.
    Default { reader: usize, field: usize },
}

/// An instruction whose numbers the whole program decides.
#[derive(Drop)]
pub enum Statement {
    Op(Instr),
    Put(Constant),
    Miss(Mismatch),
    BytesText(Mismatch),
    /// The nodes of a writer's enum and a reader's.
    Enum { writer: usize, reader: usize },
    Call(Section),
    /// To a statement this many statements ahead.
    Ahead(Go, usize),
    /// To a statement this many statements back.
    Back(usize),
    /// How many statements ahead the code of each branch is.
    Branch(Vec<usize>),
    /// No code. It is not among the statements of any pair of well-formed schemas.
    Lost,
}

/// Returns the mismatch of a kind between two nodes.
pub fn miss(kind: MismatchKind, writer_node: usize, reader_node: usize) -> Mismatch
    ensures { result ≡ miss kind writer_node reader_node }
{
    Mismatch {
        kind,
        writer_node,
        reader_node,
    }
}

/// Appends one statement.
pub fn put(statements: &mut Vec<Statement>, statement: Statement) -> Result<(), AllocError>
    ensures { OnOk result
        ((W R : List Node) → statements_in W R statements.new.items ≡ statements_in W R statements.old.items
        ++ statement_of W R statement ∷ []) }
{
    statements.push(statement)?;
    Ok(())
}

/// Appends statements.
#[tactic(auto, using(crate::proofs::Appended::statements_on))]
pub fn put_all(statements: &mut Vec<Statement>, mut more: Vec<Statement>) -> Result<(), AllocError>
    ensures { OnOk result
        ((W R : List Node) → statements_in W R statements.new.items ≡ statements_in W R statements.old.items
        ++ statements_in W R more.items) }
{
    statements.append(&mut more)?;
    Ok(())
}

/// Appends a loop with a body: a jump ahead to where it ends, the body, and a jump back.
pub fn put_loop(
    statements: &mut Vec<Statement>,
    go: Go,
    body: Vec<Statement>,
) -> Result<(), AllocError>
    ensures { OnOk result
        ((W R : List Node) → statements_in W R statements.new.items ≡ statements_in W R statements.old.items
        ++ looped (go_of go) (statements_in W R body.items)) }
{
    let len = body.len();
    put(statements, Statement::Ahead(go, len + 2))?;
    put_all(statements, body)?;
    put(statements, Statement::Back(len + 1))
}

/// Appends a jump to `far` statements ahead, or no statement where `far` is 0.
fn put_jump(statements: &mut Vec<Statement>, far: usize) -> Result<(), AllocError>
    ensures { OnOk result ((W R : List Node) → statements_in W R statements.new.items
        ≡ statements_in W R statements.old.items ++ jump_statements far) }
{
    if far == 0 {
        return Ok(());
    }
    put(statements, Statement::Ahead(Go::Jump, far))
}

/// Appends a branch to each of these parts, and the parts, after each but the last a jump to where the last ends.
/// There is room for all of them before the first is added.
pub fn put_branched(
    alloc: Global,
    statements: &mut Vec<Statement>,
    parts: Vec<Vec<Statement>>,
) -> Result<(), AllocError>
    ensures { OnOk result ((W R : List Node) → statements_in W R statements.new.items
        ≡ statements_in W R statements.old.items ++ branched (parts_in W R parts.items)) }
{
    let mut fars = Vec::new(alloc);
    // How many statements ahead the end is.
    let mut far = 0;
    for part in &parts {
        fars.push(far + 1)?;
        far += part.len() + 1;
        statements.try_reserve(far)?;
    }
    put(statements, Statement::Branch(fars))?;
    for part in parts {
        far -= part.len() + 1;
        put_all(statements, part)?;
        put_jump(statements, far)?;
    }
    Ok(())
}

/// Appends the statement that a record begins with: the call of its routine, or the miss of the first of the reader's
/// fields that has neither a partner nor a default.
pub fn put_record(
    statements: &mut Vec<Statement>,
    writer_node: usize,
    reader_node: usize,
    lacking: Option<usize>,
) -> Result<(), AllocError>
    ensures { OnOk result ((W R : List Node) → statements_in W R statements.new.items
        ≡ statements_in W R statements.old.items ++ record_statement writer_node reader_node lacking ∷ []) }
{
    match lacking {
        Some(node) => put(
            statements,
            Statement::Miss(miss(MismatchKind::NoDefault, writer_node, node)),
        ),
        None => put(
            statements,
            Statement::Call(Section::Write(writer_node, reader_node)),
        ),
    }
}

/// Appends the statement that selects the slot of one of the writer's fields, if it has a partner: slots are in the
/// order of the reader's fields.
pub fn put_slot(
    statements: &mut Vec<Statement>,
    routes: &[Route],
    field: usize,
) -> Result<(), AllocError>
    requires field { field < length routes.now }
    requires slot { IfSome (slice_get routes.now field) HasSlot }
    ensures { OnOk result ((W R : List Node) → statements_in W R statements.new.items
        ≡ statements_in W R statements.old.items ++ slot_statements (slice_get routes.now field)) }
{
    match routes[field].partner {
        Some(partner) => put(
            statements,
            Statement::Op(Instr::Slot(partner.position as u32)),
        ),
        None => Ok(()),
    }
}

/// Appends the routine of two records, with the statements of the writer's fields and of the defaults.
pub fn put_routine(
    statements: &mut Vec<Statement>,
    slots: u32,
    fields: Vec<Statement>,
    defaults: Vec<Statement>,
) -> Result<(), AllocError>
    ensures { OnOk result
        ((W R : List Node) → statements_in W R statements.new.items ≡ statements_in W R statements.old.items
        ++ routine_statements slots (statements_in W R fields.items) (statements_in W R defaults.items)) }
{
    put(statements, Statement::Op(Instr::Record(slots)))?;
    put_all(statements, fields)?;
    put_all(statements, defaults)?;
    put(statements, Statement::Op(Instr::EndRecord))?;
    put(statements, Statement::Op(Instr::Return))
}
