//! The interface through which messages are rewritten.

use crate::gate::Gate;
use avro_bytes::Outcome;
use schema_registry::Receipt;
pub use spec_service::TranscodeFault;
use std::sync::Wait;

/// The receipts of a writer's schema and of a reader's.
#[derive(Drop)]
pub struct ReceiptPair {
    pub writer: Receipt,
    pub reader: Receipt,
}

/// A transcoder, which returns the outcome of payloads for pairs of receipts of one registry.
pub trait Transcode {
    ghost use Rattle.std.specs.Prelude.{◌≡◌, ◌≤◌, ℕ, List, IfErr, IfOk, vec_len};
    ghost use Rattle.spec_avro.specs.declared.limits.TheConstants.{MOST_PAYLOAD};
    ghost use Rattle.spec_registry.specs.Receipt.{IsReceiptOf, Shown};
    ghost use Rattle.spec_service.specs.declared.transcode_fault.TranscodeFault.{TranscodeFault};
    ghost use Rattle.gateway_core.specs.Gates.{SaidNo};
    ghost use Rattle.gateway_core.specs.Transcoding.{HasOutcome, IsWhyNone};

    /// What a caller keeps between two calls.
    type Seat;

    // The names of the cells of the registry whose receipts it takes.
    ghost cells: { Self → List ℕ };

    // Whether a seat is one of its own, with no work left to do.
    ghost rests: { Self → Self.Seat → Type 0 };

    // Why a call that took the first seat and left the second has no outcome for the writer and the reader.
    ghost refuses: { Self → Self.Seat → Self.Seat → Shown → Shown → TranscodeFault → Type 0 };

    /// Returns the outcome of a payload of the writer's schema for the reader's. Where it has to wait it asks the
    /// gate.
    fn transcode<R: Wait, G: Gate>(
        &self,
        rt: &R,
        seat: &mut Self::Seat,
        gate: &mut G,
        pair: &mut ReceiptPair,
        payload: Vec<u8>,
    ) -> Result<Outcome, TranscodeFault>
        requires seat { rests self.now seat.old }
        requires writer { IsReceiptOf (cells self.now) pair.old.writer }
        requires reader { IsReceiptOf (cells self.now) pair.old.reader }
        requires payload { vec_len payload ≤ MOST_PAYLOAD }
        ensures seat { rests self.now seat.new }
        ensures pair { pair.new ≡ pair.old }
        ensures outcome { IfOk result (HasOutcome pair.old.writer pair.old.reader payload.items) }
        ensures why { IfErr result (IsWhyNone (refuses self.now seat.old seat.new) (SaidNo G.says gate.old gate.new)
            pair.old.writer pair.old.reader) };
}
