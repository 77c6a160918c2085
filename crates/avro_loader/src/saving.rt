//! Writing the image of a program.

ghost use Rattle.std.specs.Prelude.{◌≡◌, ◌++◌, OnOk, IfOk};
ghost use Rattle.spec_machine.specs.Image.{constant, image_of, section};

use crate::put_long;
use crate::thing::Thing;
use isa::{Lists, Program};
use std::alloc::{AllocError, Global};

/// Appends a section of things: their count, and each of them.
fn put_section<T: Thing>(out: &mut Vec<u8>, things: &[T]) -> Result<(), AllocError>
    ensures { OnOk result (out.new.items ≡ out.old.items ++ section T.spelled things.now) }
{
    put_long(out, things.len())?;
    for thing in things {
        thing.put(out)?;
    }
    Ok(())
}

/// Appends a section of tables: their count, and each of them.
fn put_tables<T: Thing>(out: &mut Vec<u8>, tables: &Lists<T>) -> Result<(), AllocError>
    ensures { OnOk result (out.new.items ≡ out.old.items ++ section (section T.spelled) tables.now) }
{
    put_long(out, tables.len())?;
    for number in 0..tables.len() {
        put_section(out, tables.list(number))?;
    }
    Ok(())
}

/// Appends the section of constants: their count, and each of them after its length.
fn put_constants(out: &mut Vec<u8>, constants: &Lists<u8>) -> Result<(), AllocError>
    ensures { OnOk result (out.new.items ≡ out.old.items ++ section constant constants.now) }
{
    put_long(out, constants.len())?;
    for number in 0..constants.len() {
        let constant = constants.list(number);
        put_long(out, constant.len())?;
        out.extend_from_slice(constant)?;
    }
    Ok(())
}

/// Appends the image of a program, in version 2.
fn put_image(out: &mut Vec<u8>, program: &Program) -> Result<(), AllocError>
    ensures { OnOk result (out.new.items ≡ out.old.items ++ image_of program.now) }
{
    out.extend_from_slice(b"AVRP\x02")?;
    put_constants(out, program.constants())?;
    put_tables(out, program.maps())?;
    put_tables(out, program.jumps())?;
    put_section(out, program.misses())?;
    put_section(out, program.code())
}

/// Returns the image of a program, in version 2.
pub fn save(alloc: Global, program: &Program) -> Result<Vec<u8>, AllocError>
    ensures { IfOk result (λ made. made.items ≡ image_of program.now) }
{
    let mut out = Vec::new(alloc);
    put_image(&mut out, program)?;
    Ok(out)
}
