//! A run of a program on bytes that come in pieces.

ghost use Rattle.std.specs.Prelude.{◌≡◌, ◌≤◌, ◌<◌, ◌+◌, ◌++◌, length, slice_get, IfErr, OnOk, OnErr, option_map, Some, false, true};
ghost use Rattle.spec_machine.specs.Row.{row_of};
ghost use Rattle.spec_machine.specs.Code.{code_of};
ghost use Rattle.spec_machine.specs.Alone.{run_alone};
ghost use Rattle.spec_machine.specs.Memory.{GoesOn, MayGrow};
ghost use Rattle.machine.specs.Contract.{OnlyAppends};
ghost use Rattle.machine.specs.Running.{end_of};
ghost use Rattle.machine.specs.Slice.{IsWhy, Rows};
ghost use Rattle.machine.specs.Ending.{LeadsToOutcome};
ghost use Rattle.machine.specs.Run.{IsCarry};

use crate::{Machine, Slice, Why, machines_go_on_with_more_input};
use avro_types::Nodes;
use isa::{End, Program, row_or_end_is_there};
use machine_plan::PlannedProgram;
use program_correctness::{program_ends_with_the_outcome, runs_alone_are_counted_and_stay};
use std::alloc::{AllocError, Global};
use std::marker::Model;

/// A run of a program on bytes that come in pieces.
///
/// However they are cut and whoever takes the rows, its machine is the program run alone on all bytes so far.
#[derive(Drop)]
pub struct Run<'p> {
    program: &'p PlannedProgram,
    input: Vec<u8>,
    ended: bool,
    machine: Machine,
}

impl<'p> Model for Run<'p> {
    ghost use Rattle.machine.specs.Run.{IsKept, Run, run_of};

    ghost Value = { Run };

    ghost view = { λ r. run_of r.program.now r.input.items r.ended r.machine };

    ghost invariant = { λ r. IsKept (run_of r.program.now r.input.items r.ended r.machine) };
}

impl<'p> Run<'p> {
    ghost use Rattle.machine.specs.Run.{begun};

    /// Returns the run before its first row, with no input yet. It allocates nothing.
    pub fn new(alloc: Global, program: &'p PlannedProgram) -> Run<'p>
        ensures { result ≡ begun program.now }
    {
        machines_go_on_with_more_input(); // law
        Run {
            program,
            input: Vec::new(alloc),
            ended: false,
            machine: Machine::new(alloc),
        }
    }

    /// Goes back to the run that `new` returns for a program, this one's or another, and keeps the memory.
    pub fn reset(&mut self, program: &'p PlannedProgram)
        ensures { self.new ≡ begun program.now }
    {
        machines_go_on_with_more_input(); // law
        self.program = program;
        self.input.clear();
        self.ended = false;
        self.machine.reset();
    }

    /// Releases memory beyond what is held, but keeps enough for `bytes` bytes and for a 64th as many slots,
    /// frames and calls.
    pub fn shrink_to(&mut self, bytes: usize)
        ensures { self.new ≡ self.old }
    {
        self.input.shrink_to(bytes);
        self.machine.shrink_to(bytes);
    }

    /// Appends bytes to the input. No memory is allocated where `piece` is empty.
    pub fn push(&mut self, piece: &[u8]) -> Result<(), AllocError>
        requires { self.old.ended ≡ false }
        ensures pushed { OnOk result (self.new ≡ record self.old { input = self.old.input ++ piece.now }) }
        ensures refused { OnErr result (self.new ≡ self.old) }
        ensures grows { OnErr result (0 < length piece.now) }
    {
        if piece.is_empty() {
            return Ok(());
        }
        machines_go_on_with_more_input(); // law
        runs_alone_are_counted_and_stay(); // law
        self.input.extend_from_slice(piece)
    }

    /// Appends bytes to the input, as `push` does.
    ///
    /// If the input is empty and there are more than `most_copied` bytes, they are not copied: their vector takes the
    /// place of the input's memory. Where memory runs out, the bytes are handed back.
    pub fn push_owned(&mut self, piece: Vec<u8>, most_copied: usize) -> Result<(), Vec<u8>>
        requires { self.old.ended ≡ false }
        ensures pushed { OnOk result (self.new ≡ record self.old { input = self.old.input ++ piece.items }) }
        ensures refused { IfErr result (λ back. (self.new ≡ self.old) × (back.items ≡ piece.items)) }
        ensures grows { OnErr result (0 < length piece.items) }
    {
        if piece.len() > most_copied && self.input.is_empty() {
            machines_go_on_with_more_input(); // law
            runs_alone_are_counted_and_stay(); // law
            self.input = piece;
            return Ok(());
        }
        if self.push(&piece).is_err() {
            return Err(piece);
        }
        Ok(())
    }

    /// Closes the input: no more bytes come.
    pub fn close(&mut self)
        ensures { self.new ≡ record self.old { ended = true } }
    {
        runs_alone_are_counted_and_stay(); // law
        self.ended = true;
    }

    /// Takes rows: at most `limit`, none at a breakpoint at which no content is begun, and none that cannot be counted.
    pub fn slice(&mut self, breaks: &[u32], limit: u64) -> Slice
        ensures rows { Rows self.old.program self.old.input self.old.ended breaks.now result.rows
            self.old.machine.state self.new.machine.state }
        ensures most { result.rows ≤ limit }
        ensures count { self.new.machine.state.count ≡ self.old.machine.state.count + result.rows }
        ensures why { IsWhy self.old.program self.old.input self.old.ended breaks.now result.why limit result.rows
            self.new.machine.state }
        ensures appends { OnlyAppends self.old.machine self.new.machine }
        ensures memory { result.why ≡ Why.NoMemory
            → MayGrow (slice_get self.old.program.code self.new.machine.state.pc) }
        ensures goes_on { result.why ≡ Why.NoMemory → GoesOn self.new.machine.state
            (row_of self.old.program self.old.input self.old.ended self.new.machine.state) }
        ensures kept { self.new ≡ record self.old { machine = self.new.machine } }
    {
        runs_alone_are_counted_and_stay(); // law
        self.machine
            .slice(self.program, &self.input, self.ended, breaks, limit)
    }

    /// The law that its machine is the program run alone on the bytes that came, for as many rows as it has counted.
    pub fn is_alone(&self)
        ensures { run_alone self.now.program self.now.input self.now.ended self.now.machine.state.count
            ≡ Some self.now.machine.state }
    {
        let _opened = &self.machine; // read for the proof
    }

    /// The law that a run of the program of a pair of schemas ends with the outcome of the bytes that came.
    ///
    /// Where these are all, and 16,777,216 bytes at most, it ends within the row bound: as many rows as the program
    /// has instructions for each unit that is counted at the end and for the whole, and one for each byte. There one
    /// slice of that many rows with no breakpoint ends it, unless memory runs out.
    pub fn ends_with_the_outcome(&self, writer: &Nodes, reader: &Nodes)
        requires { code_of writer.now reader.now ≡ Some self.now.program }
        ensures { LeadsToOutcome writer.now reader.now self.now.program self.now.input self.now.ended
            self.now.machine.state }
    {
        let _opened = &self.machine; // read for the proof
        program_ends_with_the_outcome(writer, reader); // law
        runs_alone_are_counted_and_stay(); // law
        row_or_end_is_there(); // law
    }

    /// Returns the program that is run.
    pub fn program(&self) -> &'p Program
        ensures { result.now ≡ self.now.program }
    {
        self.program.program()
    }

    /// Returns all bytes that came.
    pub fn input(&self) -> &[u8]
        ensures { result.now ≡ self.now.input }
    {
        self.input.as_slice()
    }

    /// Returns whether the input is closed, so that no more bytes come.
    pub fn is_closed(&self) -> bool
        ensures { result ≡ self.now.ended }
    {
        self.ended
    }

    /// Returns the machine, to read its state.
    pub fn machine(&self) -> &Machine
        ensures { result.now ≡ self.now.machine }
    {
        &self.machine
    }

    /// Returns the bytes of a character that is cut at the end of what has moved of a text; none where no
    /// character is cut.
    pub fn carry(&self) -> &[u8]
        ensures { IsCarry (slice_get self.now.program.code self.now.machine.state.pc) self.now.input
            self.now.machine.state.pos self.now.machine.state.content result.now }
    {
        self.machine.carry()
    }

    /// Returns how the run ended. `None` where it has not ended.
    pub fn into_end(self) -> Option<End>
        ensures { option_map end_of result ≡ self.entry.machine.state.end }
    {
        self.machine.into_end()
    }

    /// Takes out how the run ended, and returns it. `None` where it has not ended.
    ///
    /// The run goes back to the one that `new` returns for its program, in the memory that is left: an output may
    /// take the memory along in which it lies.
    pub fn take_end(&mut self) -> Option<End>
        ensures end { option_map end_of result ≡ self.old.machine.state.end }
        ensures begun { self.new ≡ begun self.old.program }
    {
        let machine = &mut self.machine;
        let end = machine.end_and_reset();
        machines_go_on_with_more_input(); // law
        self.input.clear();
        self.ended = false;
        end
    }

    /// Returns how the run ended, and all bytes that came.
    pub fn into_parts(self) -> (Option<End>, Vec<u8>)
        ensures end { option_map end_of result.0 ≡ self.entry.machine.state.end }
        ensures input { result.1.items ≡ self.entry.input }
    {
        (self.machine.into_end(), self.input)
    }
}
