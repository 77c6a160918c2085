//! How many things of each kind a program has.

ghost use Rattle.spec_machine.specs.declared.sizes.Sizes.{Sizes};

/// How many things of each kind a program has.
#[derive(Clone, Copy, Debug)]
pub struct Sizes {
    pub code: usize,
    pub constants: usize,
    pub maps: usize,
    pub jumps: usize,
    pub misses: usize,
}
