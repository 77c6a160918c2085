//! A pair of schemas, and all that it takes to transcode one payload after another.

ghost use Rattle.std.specs.Prelude.{◌≡◌, ◌≤◌, ◌+◌, ◌++◌, ℕ, List, None, IfErr, IfOk, length, take};
ghost use Rattle.spec_machine.specs.Code.{code_of};
ghost use Rattle.program_compiler.specs.declared.error.CompileError.TheVariants.{ProgramTooLarge};
ghost use Rattle.spec_registry.specs.Envelope.{prefix};
ghost use Rattle.spec_library.specs.Report.{IsMessageReport, IsPayloadReport};
ghost use Rattle.embedding.specs.Report.{TellsOutcome, TellsRefusal};

use avro_bytes::Outcome;
use avro_schema::Schema;
use machine::{PairProgram, TranscodingRoom};
use program_compiler::CompileError;
use resolver::TranscodeError;
use spec_library::{Ids, PayloadReport, Report};
use std::alloc::Global;
use std::marker::Model;
use wire_frames::{PREFIX_LENGTH, open_envelope};

/// A pair of schemas with its program, and room to transcode one payload after another. It borrows nothing, so it can
/// be in a box that outlives the call that made it. Callers see it as the pair.
#[derive(Drop)]
pub struct OwningTranscoder {
    pair: PairProgram,
    room: TranscodingRoom,
    outcome: Outcome,
}

impl Model for OwningTranscoder {
    ghost use Rattle.std.specs.Coded.{codes};
    ghost use Rattle.avro_types.specs.DatumCode.{datum_coded};
    ghost use Rattle.spec_library.specs.Pair.{Pair};

    ghost Value = { Pair };

    ghost coded = { Prim.hlevel (codes, datum_coded) };

    ghost view = { λ t. record { writer = t.pair.writer.nodes; reader = t.pair.reader.nodes } };
}

/// Writes a head and an output to the room's front.
#[inline(always)]
fn write_both(head: &[u8], output: &[u8], room: &mut [u8])
    requires { length head.now + length output.now ≤ length room.old }
    ensures { take (length head.now + length output.now) room.new ≡ head.now ++ output.now }
{
    room[..head.len()].copy_from_slice(head);
    room[head.len()..head.len() + output.len()].copy_from_slice(output);
}

/// Writes a head and the output of an outcome to the room's front, where it is done and both fit. Returns what is
/// reported of it.
#[inline(always)]
fn report_of(outcome: &Outcome, head: &[u8], room: &mut [u8]) -> PayloadReport
    ensures { TellsOutcome outcome.now head.now room.new result }
{
    match outcome {
        Outcome::Done(output) => {
            let length = head.len() + output.len();
            if length > room.len() {
                return PayloadReport::RoomTooSmall { length };
            }
            write_both(head, output, room);
            PayloadReport::Done { length }
        }
        Outcome::Mismatch(mismatch) => PayloadReport::Mismatch(*mismatch),
        Outcome::Malformed { kind, at } => PayloadReport::Malformed {
            kind: *kind,
            at: *at,
        },
        Outcome::OutputTooLarge => PayloadReport::OutputTooLarge,
    }
}

/// Returns what is reported of a payload that has no outcome.
fn report_of_refusal(error: TranscodeError) -> PayloadReport
    ensures { (head : List ℕ) → TellsRefusal error head result }
{
    match error {
        TranscodeError::TooLarge => PayloadReport::PayloadTooLarge,
        TranscodeError::NoMemory => PayloadReport::NoMemory,
    }
}

/// Returns what comes before a payload in a message of this id.
fn message_head(id: u32) -> [u8; PREFIX_LENGTH]
    ensures { result ≡ prefix id }
{
    let [first, second, third, fourth] = id.to_be_bytes();
    [0, first, second, third, fourth]
}

impl OwningTranscoder {
    /// Makes the transcoder of a pair. `ProgramTooLarge` where its program would pass a limit, and then the pair has
    /// none; `NoMemory` where an allocation failed.
    pub fn new(
        alloc: Global,
        writer: &Schema,
        reader: &Schema,
    ) -> Result<OwningTranscoder, CompileError>
        ensures made { IfOk result (λ t. t ≡ record { writer = writer.now.nodes; reader = reader.now.nodes }) }
        ensures refused { IfErr result (λ e. e ≡ ProgramTooLarge
            → code_of writer.now.nodes reader.now.nodes ≡ None) }
    {
        let pair = PairProgram::new(alloc, writer, reader)?;
        pair.writer().same_text_has_same_nodes(writer); // law
        pair.reader().same_text_has_same_nodes(reader); // law
        Ok(OwningTranscoder {
            pair,
            room: TranscodingRoom::for_small_stack(alloc),
            outcome: Outcome::Done(Vec::new(alloc)),
        })
    }

    /// Writes a head and the output of a payload to the room's front, where both fit. Returns what is reported of it.
    #[inline(always)]
    pub fn report(&mut self, head: &[u8], payload: &[u8], room: &mut [u8]) -> PayloadReport
        ensures report { IsPayloadReport self.old head.now payload.now room.new result }
        ensures kept { self.new ≡ self.old }
    {
        let (writer, reader) = (self.pair.writer().nodes(), self.pair.reader().nodes());
        let program = self.pair.program();
        match self
            .room
            .transcode_over(writer, reader, program, payload, &mut self.outcome)
        {
            Ok(()) => {}
            Err(error) => return report_of_refusal(error),
        }
        report_of(&self.outcome, head, room)
    }

    /// Writes the reader's message of a writer's to the room's front, where it fits. Returns what is reported of it.
    pub fn report_message(&mut self, ids: Ids, message: &[u8], room: &mut [u8]) -> Report
        ensures report { IsMessageReport self.old ids message.now room.new result }
        ensures kept { self.new ≡ self.old }
    {
        let (id, payload) = match open_envelope(message) {
            Ok(opened) => opened,
            Err(error) => return Report::BadEnvelope(error),
        };
        if id != ids.writer {
            return Report::OtherWriter { id };
        }
        Report::Payload(self.report(&message_head(ids.reader), payload, room))
    }
}
