//! A published pair.

use machine::PlannedProgram;
use std::marker::Model;

/// A published pair, by the ids of its schemas, and its program.
#[derive(Drop)]
pub(crate) struct Published<'p> {
    pub(crate) writer: u32,
    pub(crate) reader: u32,
    pub(crate) program: &'p PlannedProgram,
}

impl<'p> Model for Published<'p> {
    ghost use Rattle.spec_sessions.specs.World.{Publication};

    ghost Value = { Publication };

    ghost view = { λ p. record { writer = p.writer; reader = p.reader; program = p.program.now } };
}
