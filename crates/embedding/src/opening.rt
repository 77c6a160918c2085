//! Pairs of schemas, by their texts.

ghost use Rattle.std.specs.Prelude.{◌≡◌, List, Ok, ℕ};
ghost use Rattle.spec_schema.specs.Schema.{schema_of};
ghost use Rattle.spec_avro.specs.Node.{Node};
ghost use Rattle.embedding.specs.Opening.{IsOpenError, IsTextFault, Opens, ParsesBytes, TellsReading, TellsSafety, fault_code, fault_of, status_of};
ghost use Rattle.embedding.specs.Status.{code_of};

use crate::owning::OwningTranscoder;
use crate::status::Status;
use avro_schema::Schema;
use avro_schema_names::SchemaError;
use program_compiler::CompileError;
use std::alloc::Global;

/// Why bytes are no schema's text: the first of their faults.
#[derive(Clone, Copy, Debug, PartialEq, Eq)]
pub enum TextFault {
    NotUtf8,
    Schema(SchemaError),
}

/// Why two texts make no pair, the first reason.
#[derive(Clone, Copy, Debug, PartialEq, Eq)]
pub enum OpenError {
    Writer(TextFault),
    Reader(TextFault),
    ProgramTooLarge,
    NoMemory,
}

impl TextFault {
    /// Returns the number that a program in another language sees.
    fn code(self) -> u32
        ensures { result ≡ fault_code self }
    {
        match self {
            TextFault::NotUtf8 => 12,
            TextFault::Schema(error) => match error {
                SchemaError::TooLarge => 1,
                SchemaError::NotJson => 2,
                SchemaError::BadNumber => 3,
                SchemaError::Unknown => 4,
                SchemaError::OutOfProfile => 5,
                SchemaError::BadName => 6,
                SchemaError::Redefined => 7,
                SchemaError::BadUnion => 8,
                SchemaError::BadSymbols => 9,
                SchemaError::BadDefault => 10,
                SchemaError::NoMemory => 11,
            },
        }
    }
}

impl OpenError {
    /// Returns its status.
    pub fn status(self) -> Status
        ensures { result ≡ status_of self }
    {
        match self {
            OpenError::Writer(_) => Status::BadWriter,
            OpenError::Reader(_) => Status::BadReader,
            OpenError::ProgramTooLarge => Status::ProgramTooLarge,
            OpenError::NoMemory => Status::NoMemory,
        }
    }

    /// Returns the number of the text's fault; 0 where it has none.
    pub fn fault(self) -> u32
        ensures { result ≡ fault_of self }
    {
        match self {
            OpenError::Writer(fault) | OpenError::Reader(fault) => fault.code(),
            OpenError::ProgramTooLarge | OpenError::NoMemory => 0,
        }
    }
}

/// Parses the schema of a text. The error says which fault of the text is the first.
fn parse(alloc: Global, text: &[u8]) -> Result<Schema, TextFault>
    ensures { ParsesBytes text.now result }
{
    let Ok(text) = std::str::from_utf8(text) else {
        return Err(TextFault::NotUtf8);
    };
    match Schema::parse(alloc, text) {
        Ok(schema) => Ok(schema),
        Err(error) => Err(TextFault::Schema(error)),
    }
}

/// Returns why there is no pair, where the writer's text has a fault.
fn fault_of_writer(fault: TextFault) -> OpenError
    ensures { (w r : List ℕ) → IsTextFault w fault → IsOpenError w r result }
{
    match fault {
        TextFault::Schema(SchemaError::NoMemory) => OpenError::NoMemory,
        _ => OpenError::Writer(fault),
    }
}

/// Returns why there is no pair, where the writer's text is a schema's and the reader's has a fault.
fn fault_of_reader(fault: TextFault) -> OpenError
    ensures { (w r : List ℕ) (W : List Node) → schema_of w ≡ Ok W → IsTextFault r fault → IsOpenError w r result }
{
    match fault {
        TextFault::Schema(SchemaError::NoMemory) => OpenError::NoMemory,
        _ => OpenError::Reader(fault),
    }
}

/// Makes the transcoder of the pair that two texts declare. The error says why they make none.
pub fn open(alloc: Global, writer: &[u8], reader: &[u8]) -> Result<OwningTranscoder, OpenError>
    ensures { Opens writer.now reader.now result }
{
    let writer = match parse(alloc, writer) {
        Ok(schema) => schema,
        Err(fault) => return Err(fault_of_writer(fault)),
    };
    let reader = match parse(alloc, reader) {
        Ok(schema) => schema,
        Err(fault) => return Err(fault_of_reader(fault)),
    };
    match OwningTranscoder::new(alloc, &writer, &reader) {
        Ok(transcoder) => Ok(transcoder),
        Err(CompileError::ProgramTooLarge) => Err(OpenError::ProgramTooLarge),
        Err(CompileError::NoMemory) => Err(OpenError::NoMemory),
    }
}

/// Returns whether the reader of the second text can read all data of the writer of the first, but for bytes that are
/// no UTF-8. The error says why the texts make no pair.
pub fn can_read(alloc: Global, writer: &[u8], reader: &[u8]) -> Result<bool, OpenError>
    ensures { TellsSafety writer.now reader.now result }
{
    let writer = match parse(alloc, writer) {
        Ok(schema) => schema,
        Err(fault) => return Err(fault_of_writer(fault)),
    };
    let reader = match parse(alloc, reader) {
        Ok(schema) => schema,
        Err(fault) => return Err(fault_of_reader(fault)),
    };
    match resolver::can_read(alloc, writer.nodes(), reader.nodes()) {
        Ok(safe) => Ok(safe),
        Err(_) => Err(OpenError::NoMemory),
    }
}

/// Returns the number of the status of whether a reader can read all data of a writer, and writes the number of a
/// text's fault to `fault`, 0 where there is none.
pub fn report_reading(alloc: Global, writer: &[u8], reader: &[u8], fault: &mut u32) -> u32
    ensures { TellsReading writer.now reader.now result fault.new }
{
    match can_read(alloc, writer, reader) {
        Ok(safe) => {
            *fault = 0;
            let status = if safe {
                Status::Done
            } else {
                Status::CannotRead
            };
            status.code()
        }
        Err(error) => {
            *fault = error.fault();
            error.status().code()
        }
    }
}
