//! The misses of a program.

ghost use Rattle.std.specs.Prelude.{◌≡◌, ◌∷◌, [], slice_get, IfOk, OnOk};
ghost use Rattle.spec_machine.specs.Numbering.{adding, lacked, misses_in, misses_of, same_miss};
ghost use Rattle.spec_machine.specs.Writing.{target};
ghost use Rattle.program_ir.specs.Statements.{statement_of, statements_in, targets_of};
ghost use Rattle.program_compiler.specs.Tables.{AreNoted};

use crate::maps::symbols;
use avro_bytes::{Mismatch, MismatchKind};
use avro_types::Nodes;
use program_ir::{Misses, Statement, position_for};
use std::alloc::{AllocError, Global};
use std::collections::BTreeSet;

/// Adds a miss for a symbol of the writer's, if the reader lacks it.
fn note_symbol(
    misses: &mut Misses,
    r: &Nodes,
    writer: usize,
    reader: usize,
    symbol: &str,
) -> Result<(), AllocError>
    ensures { OnOk result (misses.new
        ≡ adding same_miss misses.old (lacked (target writer reader (slice_get r.now reader) symbol.now ∷ []))) }
{
    match position_for(r, reader, symbol) {
        Some(_) => Ok(()),
        None => misses.add(Mismatch {
            kind: MismatchKind::NoSymbol,
            writer_node: writer,
            reader_node: reader,
        }),
    }
}

/// Adds the misses for the symbols of the writer's that the reader lacks.
fn note_symbols(
    misses: &mut Misses,
    w: &Nodes,
    r: &Nodes,
    writer: usize,
    reader: usize,
) -> Result<(), AllocError>
    ensures { OnOk result (misses.new ≡ adding same_miss misses.old (lacked (targets_of w.now r.now writer reader))) }
{
    let texts = symbols(w, writer);
    for position in 0..texts.len() {
        note_symbol(misses, r, writer, reader, texts[position].as_str())?;
    }
    Ok(())
}

/// Adds the misses of a pair of enums. A pair that came before adds none.
fn note_pair(
    misses: &mut Misses,
    pairs: &mut BTreeSet<(usize, usize)>,
    w: &Nodes,
    r: &Nodes,
    writer: usize,
    reader: usize,
) -> Result<(), AllocError>
    requires { AreNoted w.now r.now pairs.old misses.old }
    ensures added { OnOk result
        (misses.new ≡ adding same_miss misses.old (lacked (targets_of w.now r.now writer reader))) }
    ensures noted { OnOk result (AreNoted w.now r.now pairs.new misses.new) }
{
    if !pairs.insert((writer, reader))? {
        return Ok(());
    }
    note_symbols(misses, w, r, writer, reader)
}

/// Adds the misses that a statement refers to.
fn note(
    misses: &mut Misses,
    pairs: &mut BTreeSet<(usize, usize)>,
    w: &Nodes,
    r: &Nodes,
    statement: &Statement,
) -> Result<(), AllocError>
    requires { AreNoted w.now r.now pairs.old misses.old }
    ensures added { OnOk result (misses.new
        ≡ adding same_miss misses.old (misses_of (statement_of w.now r.now statement.now))) }
    ensures noted { OnOk result (AreNoted w.now r.now pairs.new misses.new) }
{
    match statement {
        Statement::Miss(miss) => misses.add(*miss),
        Statement::BytesText(miss) => misses.add(*miss),
        Statement::Enum { writer, reader } => note_pair(misses, pairs, w, r, *writer, *reader),
        _ => Ok(()),
    }
}

/// Returns the misses that statements refer to, each once.
pub(crate) fn gather_misses(
    alloc: Global,
    writer: &Nodes,
    reader: &Nodes,
    statements: &[Statement],
) -> Result<Misses, AllocError>
    ensures { IfOk result (λ misses. misses ≡ misses_in (statements_in writer.now reader.now statements.now)) }
{
    let mut misses = Misses::new(alloc);
    let mut pairs = BTreeSet::new(alloc);
    for statement in statements {
        note(&mut misses, &mut pairs, writer, reader, statement)?;
    }
    Ok(misses)
}
