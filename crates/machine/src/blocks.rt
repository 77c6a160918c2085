//! The rows of arrays and maps.

#![tactic(auto, using(crate::proofs::Appending::goes_on, crate::proofs::Appending::no_more, crate::proofs::Appending::stays_open, crate::proofs::Appending::same_arena))]

ghost use Rattle.std.specs.Prelude.{◌≢◌};
ghost use Rattle.spec_machine.specs.declared.instr.Instr.TheVariants as op;
ghost use Rattle.machine.specs.Contract.{AppendsThese, closing_bytes};
ghost use Rattle.machine.specs.RowContract.{RowAfter, RowBefore};

use crate::feed::Feed;
use crate::machine::Machine;
use crate::step::Step;
use avro_bytes::BlockWalk;
use isa::Trap;
use machine_store::Opening;

impl Machine {
    /// Takes the row that opens an array or a map.
    pub(crate) fn blocks(&mut self, feed: &Feed<'_>) -> Step
        requires { RowBefore feed.now self.old }
        ensures { RowAfter feed.now op.Blocks result self.old self.new }
    {
        match BlockWalk::begin(self.pos(), self.meter()) {
            Ok((walk, inside)) => self.open(Opening::Blocks(walk), inside),
            Err(fault) => self.refuse(fault, feed),
        }
    }

    /// Takes the row that opens an array or a map that is skipped.
    pub(crate) fn skip_blocks(&mut self, feed: &Feed<'_>) -> Step
        requires { RowBefore feed.now self.old }
        ensures { RowAfter feed.now op.SkipBlocks result self.old self.new }
    {
        match BlockWalk::begin(self.pos(), self.meter()) {
            Ok((walk, inside)) => self.open(Opening::SkipBlocks(walk), inside),
            Err(fault) => self.refuse(fault, feed),
        }
    }

    /// Takes the row before an item: it begins the next item, or closes the array or map and goes on at
    /// address `after`.
    pub(crate) fn next_item(&mut self, after: u32, feed: &Feed<'_>) -> Step
        requires { RowBefore feed.now self.old }
        ensures after { RowAfter feed.now (op.Next after) result self.old self.new }
        ensures joins { AppendsThese (closing_bytes self.old.state.store.frames self.new.state.store.frames)
            self.old self.new }
    {
        let Some(mut walk) = self.walk() else {
            return self.trap(Trap::NoFrame);
        };
        match walk.next(feed.input, self.pos(), self.meter()) {
            Ok((true, to, inside)) => self.gather(walk, to, inside),
            Ok((false, _, _)) if !self.has_current_below() => self.trap(Trap::NoBuffer),
            Ok((false, to, _)) => self.close_blocks(after as usize, to),
            Err(fault) => self.refuse(fault, feed),
        }
    }

    /// Takes the row before an item that is skipped: it begins the next item, or leaves the array or map and goes on
    /// at address `after`.
    pub(crate) fn skip_next(&mut self, after: u32, feed: &Feed<'_>) -> Step
        requires { RowBefore feed.now self.old }
        ensures after { RowAfter feed.now (op.SkipNext after) result self.old self.new }
        ensures memory { result ≢ Step.NoMemory }
    {
        let Some(mut walk) = self.skip_walk() else {
            return self.trap(Trap::NoFrame);
        };
        match walk.next(feed.input, self.pos(), self.meter()) {
            Ok((true, to, inside)) => self.pass(walk, to, inside),
            Ok((false, to, _)) => {
                self.leave();
                self.jump(after as usize, to)
            }
            Err(fault) => self.refuse(fault, feed),
        }
    }
}
