//! The constants of a program, as bytes.

ghost use Rattle.std.specs.Prelude.{◌≡◌, ◌<◌, ◌∷◌, [], List, None, length, slice_get, IfOk, IfSome, MatchOption};
ghost use Rattle.spec_avro.specs.Writing.{written};
ghost use Rattle.avro_types.specs.Datum.{datum_of};
ghost use Rattle.spec_avro.specs.Node.{Node};
ghost use Rattle.spec_avro.specs.declared.limits.TheConstants.{MOST_OUTPUT};
ghost use Rattle.spec_machine.specs.Numbering.{constants_of, named_in};
ghost use Rattle.program_compiler.specs.Parts.{Notes};
ghost use Rattle.program_compiler.specs.Tables.{AreDefaults};
ghost use Rattle.program_ir.specs.declared.statements.Constant.TheVariants.{Default};
ghost use Rattle.program_ir.specs.Statements.{default_of, fields_of_record, statement_of, statements_in, bytes_of as bytes_of_constant};

use avro_bytes::put_long;
use avro_datum::{WriteError, write};
use avro_types::{Datum, Kind, Nodes};
use program_ir::{Constant, Constants, Statement};
use std::alloc::{AllocError, Global};
use std::collections::BTreeMap;

/// Returns the default of a field of a record, if it has one.
fn default_at(nodes: &Nodes, reader: usize, field: usize) -> Option<&Datum>
    ensures none { result ≡ None
        → default_of (slice_get (fields_of_record (slice_get nodes.now reader)) field) ≡ [] }
    ensures some { IfSome result
        (λ d. default_of (slice_get (fields_of_record (slice_get nodes.now reader)) field) ≡ written (datum_of d.now)) }
{
    if reader >= nodes.len() {
        return None;
    }
    match nodes.kind(reader) {
        Kind::Record { fields, .. } => match fields.get(field) {
            Some(field) => field.default.as_ref(),
            None => None,
        },
        _ => None,
    }
}

/// Returns a default in its written form; `None` where that has more than `MOST_OUTPUT` bytes.
fn written_default(alloc: Global, default: &Datum) -> Result<Option<Vec<u8>>, AllocError>
    ensures { IfOk result (λ o. MatchOption o (MOST_OUTPUT < length (written (datum_of default.now)))
        (λ v. v.items ≡ written (datum_of default.now))) }
{
    let mut out = Vec::new(alloc);
    match write(default, &mut out) {
        Ok(()) => Ok(Some(out)),
        Err(WriteError::TooLarge) => Ok(None),
        Err(WriteError::NoMemory) => Err(AllocError),
    }
}

/// Returns the bytes of a constant; `None` where they are more than `MOST_OUTPUT`.
pub(crate) fn bytes_of(
    alloc: Global,
    reader: &Nodes,
    constant: Constant,
) -> Result<Option<Vec<u8>>, AllocError>
    ensures { IfOk result (λ o. MatchOption o (MOST_OUTPUT < length (bytes_of_constant reader.now constant))
        (λ v. v.items ≡ bytes_of_constant reader.now constant)) }
{
    match constant {
        Constant::Position(position) => {
            let mut out = Vec::new(alloc);
            put_long(&mut out, i64::from(position))?;
            Ok(Some(out))
        }
        Constant::Default {
            reader: reader_node,
            field,
        } => match default_at(reader, reader_node, field) {
            Some(default) => written_default(alloc, default),
            None => Ok(Some(Vec::new(alloc))),
        },
    }
}

/// Returns constants with a field's default added; `None` where that has too many bytes. One that was added before is
/// not written again.
fn with_default(
    alloc: Global,
    constants: Constants,
    defaults: &mut BTreeMap<(usize, usize), usize>,
    r: &Nodes,
    reader: usize,
    field: usize,
) -> Result<Option<Constants>, AllocError>
    requires { AreDefaults r.now defaults.old constants }
    ensures notes { IfOk result (λ o. Notes o constants (bytes_of_constant r.now (Default reader field) ∷ [])) }
    ensures defaults { IfOk result (λ o. IfSome o (λ more. AreDefaults r.now defaults.new more)) }
{
    if defaults.contains_key(&(reader, field)) {
        return Ok(Some(constants));
    }
    let Some(bytes) = bytes_of(alloc, r, Constant::Default { reader, field })? else {
        return Ok(None);
    };
    let number = constants.number_of(&bytes);
    let more = constants.with(bytes)?;
    defaults.insert((reader, field), number)?;
    Ok(Some(more))
}

/// Returns constants with another one added; `None` where that has too many bytes.
fn with_constant(
    alloc: Global,
    constants: Constants,
    defaults: &mut BTreeMap<(usize, usize), usize>,
    r: &Nodes,
    constant: Constant,
) -> Result<Option<Constants>, AllocError>
    requires { AreDefaults r.now defaults.old constants }
    ensures notes { IfOk result (λ o. Notes o constants (bytes_of_constant r.now constant ∷ [])) }
    ensures defaults { IfOk result (λ o. IfSome o (λ more. AreDefaults r.now defaults.new more)) }
{
    if let Constant::Default { reader, field } = constant {
        return with_default(alloc, constants, defaults, r, reader, field);
    }
    match bytes_of(alloc, r, constant)? {
        Some(bytes) => Ok(Some(constants.with(bytes)?)),
        None => Ok(None),
    }
}

/// Returns constants with the one that a statement refers to added; `None` where that has too many bytes.
fn noted(
    alloc: Global,
    constants: Constants,
    defaults: &mut BTreeMap<(usize, usize), usize>,
    r: &Nodes,
    statement: &Statement,
) -> Result<Option<Constants>, AllocError>
    requires { AreDefaults r.now defaults.old constants }
    ensures notes { IfOk result (λ o. (W : List Node)
        → Notes o constants (constants_of (statement_of W r.now statement.now))) }
    ensures defaults { IfOk result (λ o. IfSome o (λ more. AreDefaults r.now defaults.new more)) }
{
    match statement {
        Statement::Put(constant) => with_constant(alloc, constants, defaults, r, *constant),
        _ => Ok(Some(constants)),
    }
}

/// Returns the constants that statements refer to, and notes the index of each default among them in `defaults`;
/// `None` where one has too many bytes.
pub(crate) fn gather_constants(
    alloc: Global,
    defaults: &mut BTreeMap<(usize, usize), usize>,
    reader: &Nodes,
    statements: &[Statement],
) -> Result<Option<Constants>, AllocError>
    requires { AreDefaults reader.now defaults.old [] }
    ensures notes { IfOk result
        (λ o. (W : List Node) → Notes o [] (named_in constants_of (statements_in W reader.now statements.now))) }
    ensures defaults { IfOk result (λ o. IfSome o (λ more. AreDefaults reader.now defaults.new more)) }
{
    let mut constants = Constants::new(alloc);
    for statement in statements {
        match noted(alloc, constants, defaults, reader, statement)? {
            Some(more) => constants = more,
            None => return Ok(None),
        }
    }
    Ok(Some(constants))
}
