//! What a program is made of.

use crate::lists::Lists;
use avro_bytes::Mismatch;
use spec_machine::{Entry, Instr};

/// What a program is made of.
#[derive(Debug, Drop)]
pub struct Parts {
    pub code: Vec<Instr>,
    /// The bytes that are put.
    pub constants: Lists<u8>,
    /// What each symbol of a writer's enum becomes.
    pub maps: Lists<Entry>,
    /// Where each branch of a writer's union goes on.
    pub jumps: Lists<u32>,
    pub misses: Vec<Mismatch>,
}
