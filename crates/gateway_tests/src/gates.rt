//! Gates that say no.

ghost use Rattle.std.specs.Prelude.{◌≡◌, false, ⊤};

use gateway::{Gate, Place};
use std::sync::atomic::{AtomicBool, Ordering};
use std::thread;

/// A gate that says no.
#[derive(Clone, Copy, Debug, PartialEq, Eq)]
pub(crate) struct Closed;

impl Gate for Closed {
    ghost says = { λ old place answer new. answer ≡ false };

    fn at(&mut self, _place: Place) -> bool {
        false
    }
}

/// A gate that says no once a flag is set.
#[derive(Drop)]
pub(crate) struct UntilSet<'a> {
    pub(crate) flag: &'a AtomicBool,
}

impl<'a> Gate for UntilSet<'a> {
    ghost says = { λ old place answer new. ⊤ };

    fn at(&mut self, _place: Place) -> bool {
        thread::yield_now();
        !self.flag.load(Ordering::SeqCst)
    }
}

/// A gate that says no inside a turn, and how often it was asked. Before a turn it says yes, fewer than `MOST_TURNS`
/// times.
#[derive(Clone, Copy, Debug, PartialEq, Eq)]
pub(crate) struct ClosedInside {
    pub(crate) turns: u32,
    pub(crate) insides: u32,
}

/// A gate that says no inside a turn says yes before fewer turns than this.
const MOST_TURNS: u32 = 100;

impl Gate for ClosedInside {
    ghost says = { λ old place answer new. ⊤ };

    fn at(&mut self, place: Place) -> bool {
        match place {
            Place::Turn => {
                self.turns = self.turns.saturating_add(1);
                self.turns < MOST_TURNS
            }
            Place::Inside { .. } => {
                self.insides = self.insides.saturating_add(1);
                false
            }
            Place::Waiting => true,
        }
    }
}
