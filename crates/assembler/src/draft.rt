//! What was read of a listing so far.

ghost use Rattle.std.specs.Prelude.{◌≡◌, ◌+◌, ◌^◌, ◌<◌, ◌≤◌, ◌∷◌, ◌++◌, [], OnErr, OnOk, length, true};
ghost use Rattle.spec_machine.specs.Judging.{judged};
ghost use Rattle.spec_machine.specs.Program.{Program as Parted};
ghost use Rattle.assembler.specs.Assembling.{Gives, index_of, pushed_constant, with_list};
ghost use Rattle.spec_machine.specs.Assembling.{checked, fault, fault_of, in_range, is_before_code, is_before_jumps, is_before_maps, is_before_misses, nothing, with_constant, with_instr, with_jumps, with_map, with_miss, with_words};
ghost use Rattle.assembler.specs.Draft.{AreFirst};
ghost use Rattle.spec_machine.specs.ListingWords.{later, words};
ghost use Rattle.spec_machine.specs.declared.listing_fault.AsmError.TheVariants as errors;

use crate::things::{first_number, instr_of, miss_of, numbered_constant, numbered_list};
use crate::{is_text, number_of, split_word};
use isa::{
    Lists, MOST_CONSTANT_BYTES, MOST_ENTRIES, MOST_INSTRS, MOST_TABLES, Parts, Program,
    ProgramError,
};
use spec_machine::{AsmError, AsmErrorKind, AsmFault};
use std::alloc::Global;
use std::marker::Model;

/// What is read of a listing so far. Callers see it as its parts.
#[derive(Drop)]
pub(crate) struct Draft {
    parts: Parts,
    /// How many more bytes the constants may have.
    room: usize,
}

impl Model for Draft {
    ghost use Rattle.spec_machine.specs.Program.{Program};
    ghost use Rattle.isa.specs.Program.{program_of};
    ghost use Rattle.assembler.specs.Draft.{IsDraft};

    ghost Value = { Program };

    ghost view = { λ d. program_of d.parts };

    ghost invariant = { λ d. IsDraft (program_of d.parts) d.room };
}

/// Returns the error of a fault in a line.
pub(crate) fn fault(kind: AsmErrorKind, line: usize) -> AsmError
    ensures { result ≡ errors.Fault (fault kind line) }
{
    AsmError::Fault(AsmFault { line, kind })
}

/// Checks that a line is in its section, has the next number, and has room; `BadLine`, `BadIndex` or `TooLarge` where
/// not.
fn check(at: usize, here: bool, next: usize, number: u32, fits: bool) -> Result<(), AsmError>
    ensures { Gives (λ _. tt) result (checked at here next number fits) }
{
    if !here {
        return Err(fault(AsmErrorKind::BadLine, at));
    }
    if number as usize != next {
        return Err(fault(AsmErrorKind::BadIndex, at));
    }
    if !fits {
        return Err(fault(AsmErrorKind::TooLarge, at));
    }
    Ok(())
}

/// Appends a list to a table, if its line is in its section, has the next number, and has room; else as `check`.
fn push_list<T: Copy>(
    table: &mut Lists<T>,
    at: usize,
    here: bool,
    number: u32,
    list: &[T],
    fits: bool,
) -> Result<(), AsmError>
    ensures pushed { Gives (λ _. table.new) result (with_list at here table.old number list.now fits) }
    ensures refused { OnErr result (table.new ≡ table.old) }
    ensures added { OnOk result ((length table.old < MOST_TABLES) × (fits ≡ true)
        × (table.new ≡ table.old ++ list.now ∷ [])) }
{
    let next = table.len();
    check(at, here, next, number, next < MOST_TABLES && fits)?;
    table.push(list)?;
    Ok(())
}

/// The lines in which sections begin, counted from 1.
#[derive(Clone, Copy)]
struct FirstLines {
    maps: usize,
    jumps: usize,
    misses: usize,
    code: usize,
}

impl FirstLines {
    /// Returns the fault for an error of the program that the parts would be, with the line that it is in.
    fn fault_of(self, error: ProgramError) -> AsmFault
        requires fits { self.code + index_of error < 2 ^ 64 }
        requires order { (self.maps ≤ self.jumps) × (self.jumps ≤ self.misses) × (self.misses ≤ self.code) }
        ensures { (P : Parted) → AreFirst P self → result ≡ fault_of P error }
    {
        let (kind, line) = match error {
            ProgramError::NoCode => (AsmErrorKind::NoCode, self.code),
            ProgramError::Entry(map, _) => (AsmErrorKind::OutOfRange, self.maps + map),
            ProgramError::Address(table, _) => (AsmErrorKind::OutOfRange, self.jumps + table),
            ProgramError::Miss(miss) => (AsmErrorKind::OutOfRange, self.misses + miss),
            ProgramError::Instr(address) => (AsmErrorKind::OutOfRange, self.code + address),
            ProgramError::TooLarge | ProgramError::EmptyConstant(_) => (AsmErrorKind::TooLarge, 1),
        };
        AsmFault { line, kind }
    }
}

impl Draft {
    /// Returns an empty draft.
    pub(crate) fn new(alloc: Global) -> Draft
        ensures { result ≡ nothing }
    {
        Draft {
            parts: Parts {
                code: Vec::new(alloc),
                constants: Lists::new(alloc),
                maps: Lists::new(alloc),
                jumps: Lists::new(alloc),
                misses: Vec::new(alloc),
            },
            room: MOST_CONSTANT_BYTES,
        }
    }

    fn is_before_code(&self) -> bool
        ensures { result ≡ is_before_code self.now }
    {
        self.parts.code.is_empty()
    }

    fn is_before_misses(&self) -> bool
        ensures { result ≡ is_before_misses self.now }
    {
        self.parts.misses.is_empty() && self.is_before_code()
    }

    fn is_before_jumps(&self) -> bool
        ensures { result ≡ is_before_jumps self.now }
    {
        self.parts.jumps.len() == 0 && self.is_before_misses()
    }

    fn is_before_maps(&self) -> bool
        ensures { result ≡ is_before_maps self.now }
    {
        self.parts.maps.len() == 0 && self.is_before_jumps()
    }

    /// Appends a constant with its number.
    fn push_constant(&mut self, at: usize, number: u32, bytes: &[u8]) -> Result<(), AsmError>
        ensures { Gives (λ _. self.new) result (pushed_constant at self.old number bytes.now) }
    {
        let here = self.is_before_maps();
        let fits = bytes.len() <= self.room;
        push_list(&mut self.parts.constants, at, here, number, bytes, fits)?;
        self.room -= bytes.len();
        Ok(())
    }

    /// Takes the line of a constant, given the words after the first.
    #[tactic(auto, unfolding(spec_machine::specs::Assembling::with_constant))]
    fn take_constant(&mut self, alloc: Global, at: usize, words: &[u8]) -> Result<(), AsmError>
        ensures { Gives (λ _. self.new) result (with_constant at self.old (later words.now)) }
    {
        let Some((number, bytes)) = numbered_constant(alloc, words)? else {
            return Err(fault(AsmErrorKind::BadLine, at));
        };
        self.push_constant(at, number, &bytes)
    }

    /// Takes the line of a map, given the words after the first.
    #[tactic(auto, unfolding(spec_machine::specs::Assembling::with_map))]
    fn take_map(&mut self, alloc: Global, at: usize, words: &[u8]) -> Result<(), AsmError>
        ensures { Gives (λ _. self.new) result (with_map at self.old (later words.now)) }
    {
        let Some((number, map)) = numbered_list(alloc, words)? else {
            return Err(fault(AsmErrorKind::BadLine, at));
        };
        let here = self.is_before_jumps();
        let fits = map.len() <= MOST_ENTRIES;
        push_list(&mut self.parts.maps, at, here, number, &map, fits)
    }

    /// Takes the line of a jump table, given the words after the first.
    #[tactic(auto, unfolding(spec_machine::specs::Assembling::with_jumps))]
    fn take_jumps(&mut self, alloc: Global, at: usize, words: &[u8]) -> Result<(), AsmError>
        ensures { Gives (λ _. self.new) result (with_jumps at self.old (later words.now)) }
    {
        let Some((number, table)) = numbered_list(alloc, words)? else {
            return Err(fault(AsmErrorKind::BadLine, at));
        };
        let here = self.is_before_misses();
        let fits = table.len() <= MOST_ENTRIES;
        push_list(&mut self.parts.jumps, at, here, number, &table, fits)
    }

    /// Takes the line of a miss, given the words after the first.
    #[tactic(auto, unfolding(spec_machine::specs::Assembling::with_miss, spec_machine::specs::ListingParts::numbered))]
    fn take_miss(&mut self, at: usize, words: &[u8]) -> Result<(), AsmError>
        ensures { Gives (λ _. self.new) result (with_miss at self.old (later words.now)) }
    {
        let Some((number, rest)) = first_number(words) else {
            return Err(fault(AsmErrorKind::BadLine, at));
        };
        let Some(miss) = miss_of(rest) else {
            return Err(fault(AsmErrorKind::BadLine, at));
        };
        let next = self.parts.misses.len();
        check(at, self.is_before_code(), next, number, next < MOST_TABLES)?;
        self.parts.misses.push(miss)?;
        Ok(())
    }

    /// Takes the line of an instruction, whose first word is its number.
    #[tactic(auto, unfolding(spec_machine::specs::Assembling::with_instr, spec_machine::specs::ListingParts::numbered, spec_machine::specs::ListingParts::first_number))]
    fn take_instr(&mut self, at: usize, first: &[u8], rest: &[u8]) -> Result<(), AsmError>
        ensures { Gives (λ _. self.new) result (with_instr at self.old (first.now ∷ later rest.now)) }
    {
        let Some(number) = number_of(first) else {
            return Err(fault(AsmErrorKind::BadLine, at));
        };
        let Some(instr) = instr_of(rest) else {
            return Err(fault(AsmErrorKind::BadLine, at));
        };
        let next = self.parts.code.len();
        check(at, true, next, number, next < MOST_INSTRS)?;
        self.parts.code.push(instr)?;
        Ok(())
    }

    /// Takes the next line, whose number in the text is `at`.
    #[tactic(auto, unfolding(spec_machine::specs::Assembling::with_words))]
    pub(crate) fn take(&mut self, alloc: Global, at: usize, line: &[u8]) -> Result<(), AsmError>
        ensures { Gives (λ _. self.new) result (with_words at self.old (words line.now)) }
    {
        let (first, rest) = split_word(line);
        if is_text(first, "const") {
            self.take_constant(alloc, at, rest)
        } else if is_text(first, "map") {
            self.take_map(alloc, at, rest)
        } else if is_text(first, "jumps") {
            self.take_jumps(alloc, at, rest)
        } else if is_text(first, "miss") {
            self.take_miss(at, rest)
        } else {
            self.take_instr(at, first, rest)
        }
    }

    /// Returns the lines in which the sections begin.
    fn first_lines(&self) -> FirstLines
        ensures { AreFirst self.now result }
    {
        let maps = 2 + self.parts.constants.len();
        let jumps = maps + self.parts.maps.len();
        let misses = jumps + self.parts.jumps.len();
        let code = misses + self.parts.misses.len();
        FirstLines {
            maps,
            jumps,
            misses,
            code,
        }
    }

    /// Returns the draft as a program, or the fault of the first thing that keeps it from being one.
    pub(crate) fn judge(self) -> Result<Program, AsmError>
        ensures { Gives (λ P. P) result (in_range self (judged self)) }
    {
        let lines = self.first_lines();
        match Program::new(self.parts) {
            Ok(program) => Ok(program),
            Err(error) => Err(AsmError::Fault(lines.fault_of(error))),
        }
    }
}
