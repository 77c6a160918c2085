//! The line of a refusal of a whole input.

ghost use Rattle.std.specs.Prelude.{◌≡◌, ◌≢◌, ◌++◌, ◌∷◌, [], string_bytes, IfOk};
ghost use Rattle.spec_lines.specs.ListingFaults.{name_of_fault};
ghost use Rattle.spec_lines.specs.Refusal.{text_of};

use assembler::{AsmErrorKind, AsmFault};
use avro_schema::SchemaError;
pub use spec_lines::Refusal;
use std::alloc::{AllocError, Global};

/// Returns the line that reports a bad schema.
fn bad_schema(alloc: Global, line: u8, error: SchemaError) -> Result<String, AllocError>
    ensures { IfOk result (λ text. string_bytes text ≡ text_of (Refusal.BadSchema line error) ++ 10 ∷ []) }
{
    let name = error.name();
    let text = format!(in alloc; "bad schema {line} {name}\n")?;
    Ok(text)
}

/// Returns the name of what is wrong with a listing.
fn name_of_fault(kind: AsmErrorKind) -> &'static str
    ensures { result.now ≡ name_of_fault kind }
{
    match kind {
        AsmErrorKind::BadHeader => "BadHeader",
        AsmErrorKind::BadLine => "BadLine",
        AsmErrorKind::BadIndex => "BadIndex",
        AsmErrorKind::TooLarge => "TooLarge",
        AsmErrorKind::NoCode => "NoCode",
        AsmErrorKind::OutOfRange => "OutOfRange",
    }
}

/// Returns the line that reports a bad listing.
fn bad_listing(alloc: Global, fault: AsmFault) -> Result<String, AllocError>
    ensures { IfOk result (λ text. string_bytes text ≡ text_of (Refusal.BadListing fault) ++ 10 ∷ []) }
{
    let line = fault.line;
    let name = name_of_fault(fault.kind);
    let text = format!(in alloc; "bad listing {line} {name}\n")?;
    Ok(text)
}

/// Returns the refusal of the schema in a line. Memory that ran out is no fault of a schema.
pub(crate) fn refusal_of_schema(line: u8, error: SchemaError) -> Refusal
    ensures memory { error ≡ SchemaError.NoMemory → result ≡ Refusal.NoMemory }
    ensures bad { error ≢ SchemaError.NoMemory → result ≡ Refusal.BadSchema line error }
{
    if error == SchemaError::NoMemory {
        Refusal::NoMemory
    } else {
        Refusal::BadSchema { line, error }
    }
}

/// Returns its line. The error is that memory ran out, also where that is the refusal itself.
pub(crate) fn refusal_line(refusal: Refusal, alloc: Global) -> Result<String, AllocError>
    ensures memory { IfOk result (λ _. refusal ≢ Refusal.NoMemory) }
    ensures text { IfOk result (λ line. string_bytes line ≡ text_of refusal ++ 10 ∷ []) }
{
    match refusal {
        Refusal::BadSchema { line, error } => bad_schema(alloc, line, error),
        Refusal::BadListing(fault) => bad_listing(alloc, fault),
        Refusal::ProgramTooLarge => format!(in alloc; "program too large\n"),
        Refusal::BadHex => format!(in alloc; "bad hex\n"),
        Refusal::TooLarge => format!(in alloc; "too large\n"),
        Refusal::NoMemory => Err(AllocError),
    }
}
