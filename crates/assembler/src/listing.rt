//! Writing the listing of a program.

ghost use Rattle.std.specs.Prelude.{◌≡◌, ◌++◌, string_bytes, OnOk, IfOk};
ghost use Rattle.std.specs.List.{flat_map};
ghost use Rattle.spec_machine.specs.Listing.{constant_line, entry, instr_line, jumps_line, lines, listing_of, map_line, miss_line, number, operand};

use avro_bytes::Mismatch;
use isa::{Entry, Instr, Lists, Program, Shape};
use std::alloc::{AllocError, Global};
use std::fmt::Write;

/// Appends the line of a constant.
fn push_constant(
    alloc: Global,
    output: &mut String,
    number: usize,
    bytes: &[u8],
) -> Result<(), AllocError>
    ensures { OnOk result (string_bytes output.new ≡ string_bytes output.old ++ constant_line number bytes.now) }
{
    let text = hex::encode(alloc, bytes)?;
    write!(output, "const {number} ")?;
    output.push_str(&text)?;
    output.push_str("\n")
}

/// Appends the entries of a map.
fn push_entries(output: &mut String, map: &[Entry]) -> Result<(), AllocError>
    ensures { OnOk result (string_bytes output.new ≡ string_bytes output.old ++ flat_map entry map.now) }
{
    for entry in map {
        match entry {
            Entry::Position(position) => write!(output, " {position}")?,
            Entry::Miss(miss) => write!(output, " !{miss}")?,
        }
    }
    Ok(())
}

/// Appends the line of a map.
fn push_map(output: &mut String, number: usize, map: &[Entry]) -> Result<(), AllocError>
    ensures { OnOk result (string_bytes output.new ≡ string_bytes output.old ++ map_line number map.now) }
{
    write!(output, "map {number}")?;
    push_entries(output, map)?;
    output.push_str("\n")
}

/// Appends the addresses of a jump table.
fn push_addresses(output: &mut String, addresses: &[u32]) -> Result<(), AllocError>
    ensures { OnOk result (string_bytes output.new ≡ string_bytes output.old ++ flat_map number addresses.now) }
{
    for address in addresses {
        write!(output, " {address}")?;
    }
    Ok(())
}

/// Appends the line of a jump table.
fn push_jumps(output: &mut String, number: usize, addresses: &[u32]) -> Result<(), AllocError>
    ensures { OnOk result (string_bytes output.new ≡ string_bytes output.old ++ jumps_line number addresses.now) }
{
    write!(output, "jumps {number}")?;
    push_addresses(output, addresses)?;
    output.push_str("\n")
}

/// Appends the line of a miss.
fn push_miss(output: &mut String, number: usize, miss: &Mismatch) -> Result<(), AllocError>
    ensures { OnOk result (string_bytes output.new ≡ string_bytes output.old ++ miss_line number miss.now) }
{
    let kind = miss.kind.name();
    let (writer, reader) = (miss.writer_node, miss.reader_node);
    write!(output, "miss {number} {kind} {writer} {reader}\n")
}

/// Appends an operand, where there is one.
fn push_operand(output: &mut String, shape: Shape, number: u32) -> Result<(), AllocError>
    ensures { OnOk result (string_bytes output.new ≡ string_bytes output.old ++ operand shape number) }
{
    match shape {
        Shape::Nothing => Ok(()),
        Shape::Short | Shape::Long | Shape::Address => write!(output, " {number}"),
    }
}

/// Appends the line of an instruction.
fn push_instr(output: &mut String, address: usize, instr: Instr) -> Result<(), AllocError>
    ensures { OnOk result (string_bytes output.new ≡ string_bytes output.old ++ instr_line address instr) }
{
    let operation = instr.operation();
    let name = operation.name();
    write!(output, "{address} {name}")?;
    push_operand(output, operation.shape(), instr.operand())?;
    output.push_str("\n")
}

/// Appends the lines of the constants.
fn push_constants(
    alloc: Global,
    output: &mut String,
    constants: &Lists<u8>,
) -> Result<(), AllocError>
    ensures { OnOk result (string_bytes output.new ≡ string_bytes output.old ++ lines constant_line constants.now) }
{
    for number in 0..constants.len() {
        push_constant(alloc, output, number, constants.list(number))?;
    }
    Ok(())
}

/// Appends the lines of the maps.
fn push_maps(output: &mut String, maps: &Lists<Entry>) -> Result<(), AllocError>
    ensures { OnOk result (string_bytes output.new ≡ string_bytes output.old ++ lines map_line maps.now) }
{
    for number in 0..maps.len() {
        push_map(output, number, maps.list(number))?;
    }
    Ok(())
}

/// Appends the lines of the jump tables.
fn push_tables(output: &mut String, tables: &Lists<u32>) -> Result<(), AllocError>
    ensures { OnOk result (string_bytes output.new ≡ string_bytes output.old ++ lines jumps_line tables.now) }
{
    for number in 0..tables.len() {
        push_jumps(output, number, tables.list(number))?;
    }
    Ok(())
}

/// Appends the lines of the misses.
fn push_misses(output: &mut String, misses: &[Mismatch]) -> Result<(), AllocError>
    ensures { OnOk result (string_bytes output.new ≡ string_bytes output.old ++ lines miss_line misses.now) }
{
    for number in 0..misses.len() {
        push_miss(output, number, &misses[number])?;
    }
    Ok(())
}

/// Appends the lines of the code.
fn push_code(output: &mut String, code: &[Instr]) -> Result<(), AllocError>
    ensures { OnOk result (string_bytes output.new ≡ string_bytes output.old ++ lines instr_line code.now) }
{
    for address in 0..code.len() {
        push_instr(output, address, code[address])?;
    }
    Ok(())
}

/// Appends the listing of a program.
fn push_listing(alloc: Global, output: &mut String, program: &Program) -> Result<(), AllocError>
    ensures { OnOk result (string_bytes output.new ≡ string_bytes output.old ++ listing_of program.now) }
{
    output.push_str("avro program 1\n")?;
    push_constants(alloc, output, program.constants())?;
    push_maps(output, program.maps())?;
    push_tables(output, program.jumps())?;
    push_misses(output, program.misses())?;
    push_code(output, program.code())
}

/// Returns the listing of a program.
pub fn disassemble(alloc: Global, program: &Program) -> Result<String, AllocError>
    ensures { IfOk result (λ text. string_bytes text ≡ listing_of program.now) }
{
    let mut output = String::new(alloc);
    push_listing(alloc, &mut output, program)?;
    Ok(output)
}
