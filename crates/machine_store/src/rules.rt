//! Parts of rows and slices that know no machine: the instruction at an address, the count of rows, the bytes around
//! items, where a slice stops, and how a run ends.

ghost use Rattle.std.specs.Prelude.{◌&&◌, ◌++◌, ◌-◌, ◌==◌, ◌^◌, ◌∷◌, ◌≡◌, ◌≢◌, ◌⊎◌, IfErr, IfOk, None, OnErr, OnOk, Some, [], false, length, not, slice_get, true};
ghost use Rattle.spec_machine.specs.declared.trap.Trap.TheVariants.{OffEnd};
ghost use Rattle.spec_avro.specs.Written.{block_count};
ghost use Rattle.std.specs.List.{list_any};
ghost use Rattle.spec_decoding.specs.declared.fault.Fault.TheVariants.{NoMemory};
ghost use Rattle.spec_machine.specs.Program.{miss_of};
ghost use Rattle.spec_machine.specs.State.{State};
ghost use Rattle.spec_machine.specs.Table.{finished, halt};
ghost use Rattle.machine_store.specs.Ending.{IsAt, refused, told};

use avro_bytes::{Fault, MalformedKind, Mismatch, MismatchKind, put_long};
use isa::{Instr, Program, Trap};
use std::alloc::AllocError;

/// Returns the instruction at an address, or the trap where the code has ended.
#[inline(always)]
pub fn instr_at(program: &Program, address: usize) -> Result<Instr, Trap>
    ensures there { IfOk result (λ instr. slice_get program.now.code address ≡ Some instr) }
    ensures none { OnErr result (slice_get program.now.code address ≡ None) }
    ensures told { IfErr result (λ trap. trap ≡ OffEnd) }
{
    match program.instr(address) {
        Some(instr) => Ok(instr),
        None => Err(Trap::OffEnd),
    }
}

/// How many rows a run has taken.
#[derive(Clone, Copy)]
pub struct RowCount {
    pub rows: u64,
}

impl RowCount {
    ghost use Rattle.std.specs.Prelude.{◌≡◌, ◌+◌, ◌<◌, ◌^◌};

    /// Adds `more` rows.
    pub fn raise(&mut self, more: u64)
        requires { self.old.rows + more < 2 ^ 64 }
        ensures { self.new ≡ record { rows = self.old.rows + more } }
    {
        self.rows += more;
    }
}

/// Writes the bytes before `items` items in one block, and those after them, over the bytes of `around`. Returns how
/// many of these are before the items.
pub fn spell_around(around: &mut Vec<u8>, items: u32) -> Result<usize, AllocError>
    ensures spelled { OnOk result (around.new.items ≡ block_count items ++ 0 ∷ []) }
    ensures before { IfOk result (λ before. before ≡ length (block_count items)) }
{
    around.clear();
    if items > 0 {
        put_long(around, items.into())?;
    }
    let before = around.len();
    around.push(0)?;
    Ok(before)
}

/// Returns whether an address is one of these.
fn is_among(addresses: &[u32], address: usize) -> bool
    ensures { result ≡ list_any (λ a. a == address) addresses.now }
{
    addresses.iter().any(|a| *a as usize == address)
}

/// Returns whether a slice stops before an instruction at a breakpoint: it does not where a content is begun.
pub fn stops_at(breaks: &[u32], address: usize, is_moving: bool) -> bool
    ensures { result ≡ (not is_moving && list_any (λ a. a == address) breaks.now) }
{
    !is_moving && is_among(breaks, address)
}

/// Returns whether a slice has taken as many rows as it may, or as can be counted.
pub fn is_spent(rows: u64, most: u64, count: u64) -> bool
    ensures spent { result ≡ true → (rows ≡ most) ⊎ (count ≡ 2 ^ 64 - 1) }
    ensures not { result ≡ false → (rows ≢ most) × (count ≢ 2 ^ 64 - 1) }
{
    rows == most || count == u64::MAX
}

/// How a run ends, or that it waits.
#[derive(Clone, Copy)]
pub enum Verdict {
    /// It needs bytes that are not there yet.
    Waits,
    Malformed { kind: MalformedKind, at: usize },
    Mismatch(Mismatch),
    OutputTooLarge,
    /// It ends with its output.
    Done,
    Trap(Trap),
}

/// Returns the miss with index `number`. Where there is none, it is `NoMatch` of node 0 with node 0.
fn miss_of(program: &Program, number: u32) -> Mismatch
    ensures { result ≡ miss_of program.now number }
{
    match program.misses().get(number as usize) {
        Some(miss) => *miss,
        None => Mismatch {
            kind: MismatchKind::NoMatch,
            writer_node: 0,
            reader_node: 0,
        },
    }
}

/// What a run reads, and what was found so far that decides how it ends.
#[derive(Clone, Copy)]
pub struct Ending<'a> {
    pub program: &'a Program,
    pub input: &'a [u8],
    /// Whether the bytes that are there are all.
    pub ended: bool,
    /// The index of the first miss.
    pub mark: Option<u32>,
    /// Whether the output passed its limit.
    pub over: bool,
}

impl Ending<'_> {
    /// Returns the verdict at a fault of what was read: the fault is reported, whatever was found before, unless
    /// bytes are missing and more may come.
    pub fn refused(&self, fault: Fault) -> Verdict
        requires { fault ≢ NoMemory }
        ensures { (s : State) → told result s
            ≡ refused self.now.program.now self.now.input.now self.now.ended fault s }
    {
        match fault {
            Fault::Malformed { kind, at } => Verdict::Malformed { kind, at },
            Fault::Need if self.ended => Verdict::Malformed {
                kind: MalformedKind::Truncated,
                at: self.input.len(),
            },
            Fault::Need => Verdict::Waits,
            Fault::NoMemory => unreachable!(),
        }
    }

    /// Returns the verdict where all was read: the first miss, or else that the output passed its limit, or else that
    /// the run ends with its output.
    fn finished(&self) -> Verdict
        ensures { (s : State) → told result s ≡ finished self.now.program.now s self.now.mark self.now.over }
    {
        if let Some(miss) = self.mark {
            return Verdict::Mismatch(miss_of(self.program, miss));
        }
        if self.over {
            return Verdict::OutputTooLarge;
        }
        Verdict::Done
    }

    /// Returns the verdict where the program halts at offset `pos`, with this many frames and calls open.
    ///
    /// A trap where some are open; malformed where bytes are left; it waits where more may come.
    pub fn halted(&self, frames: u32, calls: usize, pos: usize) -> Verdict
        ensures { (s : State) → IsAt s frames calls pos self.now.mark self.now.over
            → told result s ≡ halt self.now.program.now self.now.input.now self.now.ended s s.store.frames s.calls }
    {
        if frames > 0 || calls > 0 {
            return Verdict::Trap(Trap::OpenAtHalt);
        }
        if pos < self.input.len() {
            return Verdict::Malformed {
                kind: MalformedKind::Trailing,
                at: pos,
            };
        }
        if !self.ended {
            return Verdict::Waits;
        }
        self.finished()
    }
}
