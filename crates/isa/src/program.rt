//! A program, whose parts are in range and within the limits.

ghost use Rattle.std.specs.Prelude.{◌≡◌, ◌↔◌, is_ok, length, slice_get, true};
ghost use Rattle.spec_machine.specs.Judging.{address_out_of_range, entry_out_of_range, first_error, first_out_of_range, instr_out_of_range, is_within_limits, judged, miss_out_of_range};
ghost use Rattle.isa.specs.Program.{program_of};
ghost use Rattle.spec_machine.specs.Range.{IsProgram, sizes_of};

use crate::limits::{MOST_CONSTANT_BYTES, MOST_ENTRIES, MOST_INSTRS, MOST_TABLES};
use crate::lists::Lists;
use crate::parts::Parts;
use crate::range::{Sizes, first_out, first_out_in};
use avro_bytes::Mismatch;
pub use spec_machine::ProgramError;
use spec_machine::{Entry, Instr};
use std::marker::Model;

/// A program, within all limits, whose instructions name what is there. Callers see it as its code and its tables.
#[derive(Debug, Drop)]
pub struct Program {
    parts: Parts,
}

impl Model for Program {
    ghost use Rattle.spec_machine.specs.Program.{Program};
    ghost use Rattle.isa.specs.Program.{program_of};
    ghost use Rattle.spec_machine.specs.Range.{IsProgram};

    ghost Value = { Program };

    ghost view = { λ p. program_of p.parts };

    ghost invariant = { λ p. IsProgram (program_of p.parts) };
}

impl Parts {
    /// Returns how many things of each kind there are.
    fn sizes(&self) -> Sizes
        ensures { result ≡ sizes_of (program_of self.now) }
    {
        Sizes {
            code: self.code.len(),
            constants: self.constants.len(),
            maps: self.maps.len(),
            jumps: self.jumps.len(),
            misses: self.misses.len(),
        }
    }

    /// Returns whether all numbers of things are within the limits.
    fn is_within_limits(&self) -> bool
        ensures { result ≡ is_within_limits (program_of self.now) }
    {
        self.code.len() <= MOST_INSTRS
            && self.constants.len() <= MOST_TABLES
            && self.constants.total_is_within(MOST_CONSTANT_BYTES)
            && self.maps.len() <= MOST_TABLES
            && self.maps.are_within(MOST_ENTRIES)
            && self.jumps.len() <= MOST_TABLES
            && self.jumps.are_within(MOST_ENTRIES)
            && self.misses.len() <= MOST_TABLES
    }

    /// Returns the first map entry that is out of range, as an error; `None` where all are in range.
    fn entry_out_of_range(&self, sizes: &Sizes) -> Option<ProgramError>
        ensures { result ≡ entry_out_of_range sizes.now (program_of self.now) }
    {
        match first_out_in(&self.maps, sizes) {
            Some((map, entry)) => Some(ProgramError::Entry(map, entry)),
            None => None,
        }
    }

    /// Returns the first address in a jump table that is out of range, as an error; `None` where all are in range.
    fn address_out_of_range(&self, sizes: &Sizes) -> Option<ProgramError>
        ensures { result ≡ address_out_of_range sizes.now (program_of self.now) }
    {
        match first_out_in(&self.jumps, sizes) {
            Some((table, address)) => Some(ProgramError::Address(table, address)),
            None => None,
        }
    }

    /// Returns the first miss that is out of range, as an error; `None` where all are in range.
    fn miss_out_of_range(&self, sizes: &Sizes) -> Option<ProgramError>
        ensures { result ≡ miss_out_of_range sizes.now (program_of self.now) }
    {
        match first_out(&self.misses, sizes) {
            Some(miss) => Some(ProgramError::Miss(miss)),
            None => None,
        }
    }

    /// Returns the first instruction whose operand is out of range, as an error; `None` where all are in range.
    fn instr_out_of_range(&self, sizes: &Sizes) -> Option<ProgramError>
        ensures { result ≡ instr_out_of_range sizes.now (program_of self.now) }
    {
        match first_out(&self.code, sizes) {
            Some(address) => Some(ProgramError::Instr(address)),
            None => None,
        }
    }

    /// Returns the first thing that is out of range: a map entry, an address, a miss or an instruction, in this order.
    fn first_out_of_range(&self) -> Option<ProgramError>
        ensures { result ≡ first_out_of_range (program_of self.now) }
    {
        let sizes = self.sizes();
        self.entry_out_of_range(&sizes)
            .or(self.address_out_of_range(&sizes))
            .or(self.miss_out_of_range(&sizes))
            .or(self.instr_out_of_range(&sizes))
    }

    /// Returns the first thing that keeps the parts from being a program; `None` where they are one.
    fn first_error(&self) -> Option<ProgramError>
        ensures { result ≡ first_error (program_of self.now) }
    {
        if self.code.is_empty() {
            return Some(ProgramError::NoCode);
        }
        if !self.is_within_limits() {
            return Some(ProgramError::TooLarge);
        }
        if let Some(constant) = self.constants.first_empty() {
            return Some(ProgramError::EmptyConstant(constant));
        }
        self.first_out_of_range()
    }
}

impl Program {
    /// Returns the program with these parts, or the first thing that keeps them from being one.
    pub fn new(parts: Parts) -> Result<Program, ProgramError>
        ensures judged { result ≡ judged (program_of parts) }
        ensures exact { is_ok result ≡ true ↔ IsProgram (program_of parts) }
    {
        match parts.first_error() {
            Some(error) => Err(error),
            None => Ok(Program { parts }),
        }
    }

    /// Returns the number of its instructions.
    pub fn len(&self) -> usize
        ensures { result ≡ length self.now.code }
    {
        self.parts.code.len()
    }

    /// Returns the instruction at an address; `None` where there is none.
    pub fn instr(&self, address: usize) -> Option<Instr>
        ensures { result ≡ slice_get self.now.code address }
    {
        self.parts.code.get(address).copied()
    }

    /// Returns its instructions, in order.
    pub fn code(&self) -> &[Instr]
        ensures { result.now ≡ self.now.code }
    {
        self.parts.code.as_slice()
    }

    /// Returns its constants.
    pub fn constants(&self) -> &Lists<u8>
        ensures { result.now ≡ self.now.constants }
    {
        &self.parts.constants
    }

    /// Returns its maps: what each symbol of a writer's enum becomes.
    pub fn maps(&self) -> &Lists<Entry>
        ensures { result.now ≡ self.now.maps }
    {
        &self.parts.maps
    }

    /// Returns its jump tables: where each branch of a writer's union goes on.
    pub fn jumps(&self) -> &Lists<u32>
        ensures { result.now ≡ self.now.jumps }
    {
        &self.parts.jumps
    }

    /// Returns its misses.
    pub fn misses(&self) -> &[Mismatch]
        ensures { result.now ≡ self.now.misses }
    {
        self.parts.misses.as_slice()
    }

    /// The law that it has an instruction, is within all limits, and names only what is there.
    pub fn is_in_range(&self)
        ensures { IsProgram self.now }
    {
        let _opened = &self.parts; // read for the proof
    }
}
