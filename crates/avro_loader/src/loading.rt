//! Loading an image as a program, or its first fault.

ghost use Rattle.std.specs.Prelude.{◌≡◌, IfOk, IsErrOf, IsOk, Ok};
ghost use Rattle.spec_machine.specs.Program.{Program as Parted};
ghost use Rattle.isa.specs.Program.{program_of};
ghost use Rattle.spec_machine.specs.Range.{IsProgram};
ghost use Rattle.avro_loader.specs.ImageReading.{opened};
ghost use Rattle.avro_loader.specs.declared.fault.LoadError.TheVariants.{NoMemory};
ghost use Rattle.spec_machine.specs.Image.{IsImage, image_of};
ghost use Rattle.avro_loader.specs.Loading.{in_range, loaded, loaded_as, migrated, nothing, sections_at, starts_of};
ghost use Rattle.avro_loader.specs.Reading.{Gives};
ghost use Rattle.spec_machine.specs.Judging.{judged};

use crate::fault::LoadError;
use crate::places::{Sections, from_wrong};
use crate::reading::{
    push_section, push_section_of_code, push_section_of_constants, push_section_of_tables,
};
use crate::saving::save;
use crate::{Format, ImageFault, ended, open};
use isa::{Lists, MOST_TABLES, Parts, Program};
use std::alloc::Global;

/// Appends what the sections hold to parts that hold nothing, and returns the bytes from each section on and those
/// after the last; else the first fault.
#[tactic(auto, unfolding(crate::specs::Loading::sections_at))]
fn push_sections<'a>(
    alloc: Global,
    format: Format,
    bytes: &'a [u8],
    parts: &mut Parts,
) -> Result<(Sections<'a>, &'a [u8]), LoadError>
    requires { program_of parts.old ≡ nothing }
    ensures { Gives (λ x. ((program_of parts.new, starts_of x.0), x.1.now)) result
        (sections_at format bytes.now) }
{
    let maps = push_section_of_constants(format, bytes, &mut parts.constants)?;
    let jumps = push_section_of_tables(alloc, format, maps, &mut parts.maps)?;
    let misses = push_section_of_tables(alloc, format, jumps, &mut parts.jumps)?;
    let code = push_section(format, MOST_TABLES, misses, &mut parts.misses)?;
    let rest = push_section_of_code(format, code, &mut parts.code)?;
    let starts = Sections {
        maps,
        jumps,
        misses,
        code,
    };
    Ok((starts, rest))
}

/// Returns the program with these parts, or the offset of what is out of range as a fault.
fn program_of_parts(
    alloc: Global,
    format: Format,
    starts: Sections<'_>,
    parts: Parts,
) -> Result<Program, LoadError>
    ensures { Gives (λ x. x) result (in_range format (starts_of starts.entry) (judged (program_of parts))) }
{
    match Program::new(parts) {
        Ok(program) => Ok(program),
        Err(error) => {
            let left = from_wrong(alloc, format, starts, error)?;
            Err(LoadError::Fault(ImageFault::OutOfRange(format.place(left))))
        }
    }
}

/// Loads the program whose sections these bytes are, or returns the first fault.
#[tactic(auto, unfolding(crate::specs::Loading::loaded_as))]
fn load_as(alloc: Global, format: Format, bytes: &[u8]) -> Result<Program, LoadError>
    ensures { Gives (λ x. x) result (loaded_as format bytes.now) }
{
    let mut parts = Parts {
        code: Vec::new(alloc),
        constants: Lists::new(alloc),
        maps: Lists::new(alloc),
        jumps: Lists::new(alloc),
        misses: Vec::new(alloc),
    };
    let (starts, rest) = push_sections(alloc, format, bytes, &mut parts)?;
    ended(format, rest)?;
    program_of_parts(alloc, format, starts, parts)
}

/// Loads the program of an image of either version, or returns the first fault.
#[tactic(auto, unfolding(crate::specs::Loading::loaded))]
fn load_whole(alloc: Global, bytes: &[u8]) -> Result<Program, LoadError>
    ensures exact { Gives (λ x. x) result (loaded bytes.now) }
    ensures memory { IsErrOf result NoMemory → IsOk (opened bytes.now) }
{
    let (version, rest) = open(bytes)?;
    let format = Format {
        version,
        len: bytes.len(),
    };
    load_as(alloc, format, rest)
}

/// Loads the program of an image of either version, or returns the first fault.
pub fn load(alloc: Global, bytes: &[u8]) -> Result<Program, LoadError>
    // What is loaded has these bytes as its image.
    ensures found { IfOk result (λ P. IsImage P bytes.now) }
    // The image of a program is loaded, unless memory runs out.
    ensures only { (P : Parted) → IsProgram P → IsImage P bytes.now → Gives (λ x. x) result (Ok P) }
    // Which fault it is.
    ensures exact { Gives (λ x. x) result (loaded bytes.now) }
    // No memory is taken before the head is read.
    ensures memory { IsErrOf result NoMemory → IsOk (opened bytes.now) }
{
    load_whole(alloc, bytes)
}

/// Returns the image of a program, in version 2.
fn image_of(alloc: Global, program: &Program) -> Result<Vec<u8>, LoadError>
    ensures { Gives (λ made. made.items) result (Ok (image_of program.now)) }
{
    Ok(save(alloc, program)?)
}

/// Returns the image of version 2 of the program whose image, of either version, these bytes are, or the first fault.
pub fn migrate(alloc: Global, bytes: &[u8]) -> Result<Vec<u8>, LoadError>
    ensures found { IfOk result (λ made. (P : Parted) × IsImage P bytes.now × (made.items ≡ image_of P)) }
    ensures exact { Gives (λ made. made.items) result (migrated bytes.now) }
    ensures memory { IsErrOf result NoMemory → IsOk (opened bytes.now) }
{
    let program = load(alloc, bytes)?;
    image_of(alloc, &program)
}
