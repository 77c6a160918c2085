//! The rows of booleans and numbers.

#![tactic(auto, using(crate::proofs::Appending::goes_on, crate::proofs::Appending::same_arena))]

ghost use Rattle.std.specs.Prelude.{◌≢◌};
ghost use Rattle.spec_machine.specs.declared.instr.Instr.TheVariants as op;
ghost use Rattle.machine.specs.RowContract.{RowAfter, RowBefore};

use crate::feed::Feed;
use crate::machine::Machine;
use crate::step::Step;
use avro_bytes::{read_boolean, read_int, read_long};
use isa::Trap;
use machine_scans::spelling;

impl Machine {
    /// Takes the row that moves a boolean.
    pub(crate) fn boolean(&mut self, feed: &Feed<'_>) -> Step
        requires { RowBefore feed.now self.old }
        ensures { RowAfter feed.now op.Bool result self.old self.new }
    {
        if !self.has_current() {
            return self.trap(Trap::NoBuffer);
        }
        match read_boolean(feed.input, self.pos(), self.meter()) {
            Ok((value, to, _)) => self.move_bytes(&[u8::from(value)], to),
            Err(fault) => self.refuse(fault, feed),
        }
    }

    /// Takes the row that moves an int, in its shortest encoding.
    pub(crate) fn int(&mut self, feed: &Feed<'_>) -> Step
        requires { RowBefore feed.now self.old }
        ensures { RowAfter feed.now op.Int result self.old self.new }
    {
        if !self.has_current() {
            return self.trap(Trap::NoBuffer);
        }
        match read_int(feed.input, self.pos(), self.meter()) {
            Ok((value, to, _)) => {
                let spelling = spelling(feed.input, self.pos(), to, value.into());
                self.move_number(value.into(), spelling, to)
            }
            Err(fault) => self.refuse(fault, feed),
        }
    }

    /// Takes the row that moves a long, in its shortest encoding.
    pub(crate) fn long(&mut self, feed: &Feed<'_>) -> Step
        requires { RowBefore feed.now self.old }
        ensures { RowAfter feed.now op.Long result self.old self.new }
    {
        if !self.has_current() {
            return self.trap(Trap::NoBuffer);
        }
        match read_long(feed.input, self.pos(), self.meter()) {
            Ok((value, to, _)) => {
                let spelling = spelling(feed.input, self.pos(), to, value);
                self.move_number(value, spelling, to)
            }
            Err(fault) => self.refuse(fault, feed),
        }
    }

    /// Takes the row that skips a boolean.
    pub(crate) fn skip_boolean(&mut self, feed: &Feed<'_>) -> Step
        requires { RowBefore feed.now self.old }
        ensures after { RowAfter feed.now op.SkipBool result self.old self.new }
        ensures memory { result ≢ Step.NoMemory }
    {
        match read_boolean(feed.input, self.pos(), self.meter()) {
            Ok((_, to, _)) => self.next(to),
            Err(fault) => self.refuse(fault, feed),
        }
    }

    /// Takes the row that skips an int.
    pub(crate) fn skip_int(&mut self, feed: &Feed<'_>) -> Step
        requires { RowBefore feed.now self.old }
        ensures after { RowAfter feed.now op.SkipInt result self.old self.new }
        ensures memory { result ≢ Step.NoMemory }
    {
        match read_int(feed.input, self.pos(), self.meter()) {
            Ok((_, to, _)) => self.next(to),
            Err(fault) => self.refuse(fault, feed),
        }
    }

    /// Takes the row that skips a long.
    pub(crate) fn skip_long(&mut self, feed: &Feed<'_>) -> Step
        requires { RowBefore feed.now self.old }
        ensures after { RowAfter feed.now op.SkipLong result self.old self.new }
        ensures memory { result ≢ Step.NoMemory }
    {
        match read_long(feed.input, self.pos(), self.meter()) {
            Ok((_, to, _)) => self.next(to),
            Err(fault) => self.refuse(fault, feed),
        }
    }
}
