//! The box of a transcoder, as a pointer that a program in another language keeps.

ghost use Rattle.std.specs.Prelude.{◌≡◌, Some, None, Option, true, is_some};
ghost use Rattle.std.specs.Coded.{codes};
ghost use Rattle.avro_types.specs.DatumCode.{datum_coded};
ghost use Rattle.spec_library.specs.Pair.{Pair};
ghost use Rattle.transcoder_handle.specs.Held.{held_owns};

use crate::BoxPointer;
use embedding::OwningTranscoder;
use std::alloc::Global;
use std::marker::Model;
use std::ptr::null_mut;

/// A pointer to the block of a transcoder's box, or to nothing. A clause reads the transcoder's pair, where there is
/// one, as `value`. It is not `Drop`: what it holds goes back into its box, and one that holds nothing is dropped by
/// `discard`. (The pointer is to bytes, since C may hold no pointer to what has such blocks in it.)
#[repr(C)]
pub struct Held {
    at: *mut u8,
    pub ghost value: { Option Pair } by { Prim.hlevel (codes, datum_coded) },
}

impl Model for Held {
    ghost also_owns = { λ h. held_owns h.at h.value };
}

unsafe impl Send for Held {}

impl Held {
    /// Returns a pointer that holds nothing.
    pub(crate) fn none() -> Held
        ensures { result.value ≡ None }
    {
        Held { at: null_mut() }
    }

    /// Returns a pointer that holds what a box's pointer owns.
    pub(crate) fn of_pointer(pointer: BoxPointer<OwningTranscoder, Global>) -> Held
        ensures { result.value ≡ Some pointer.value }
    {
        let BoxPointer { at, alloc: _ } = pointer;
        Held { at: at as *mut u8 }
    }

    /// Returns the box's pointer again.
    pub(crate) fn into_pointer(self, alloc: Global) -> BoxPointer<OwningTranscoder, Global>
        requires { is_some self.value ≡ true }
        ensures { Some result.value ≡ self.value }
    {
        let Held { at } = self;
        BoxPointer {
            at: at as *mut OwningTranscoder,
            alloc,
        }
    }

    /// Discards a pointer that holds nothing.
    pub(crate) fn discard(self)
        requires { self.value ≡ None }
    {
        let Held { at: _ } = self;
    }
}
