//! A message of one schema, rewritten for another; and which schema an id names.

ghost use Rattle.std.specs.Prelude.{◌≡◌, ◌≤◌, ◌⊎◌, IfErr, IfNone, IfOk, IfSome, length, vec_len};
ghost use Rattle.spec_avro.specs.Outcome.{outcome_of};
ghost use Rattle.spec_avro.specs.declared.limits.TheConstants.{MOST_PAYLOAD};
ghost use Rattle.spec_registry.specs.Receipt.{IsReceiptOf};
ghost use Rattle.gateway_requests.specs.Answer.{answer_of};
ghost use Rattle.spec_service.specs.declared.limits.TheConstants.{MOST_BODY};
ghost use Rattle.spec_service.specs.Answering.{TellsMessage, TellsNoReader, TellsNoWriter};
ghost use Rattle.gateway_core.specs.Gates.{SaidNo};
ghost use Rattle.spec_service.specs.NamedMessage.{HasNoWriter, TellsNamed};
ghost use Rattle.gateway_core.specs.Naming.{IsPaired};
ghost use Rattle.spec_service.specs.Outcomes.{TellsOutcome, answer_of_outcome, fault_of_transcoding};
ghost use Rattle.gateway_core.specs.Transcoding.{IsWhyNone};

use crate::answering::{Told, refused};
use crate::app::App;
use crate::gate::Gate;
use crate::transcode::{ReceiptPair, Transcode, TranscodeFault};
use avro_bytes::Outcome;
use gateway_requests::{Answer, Fault};
use schema_registry::{Receipt, SharedRegistry};
use spec_service::Evidence;
pub use spec_service::NamedSchema;
use spec_sessions::PublishError;
use std::marker::Model;
use std::sync::Wait;
use wire_frames::Message;

/// Returns the answer that reports an outcome to the reader of that id.
fn answer_of_outcome(id: u32, outcome: Outcome) -> Answer
    ensures { answer_of result ≡ answer_of_outcome id (outcome_of outcome) }
{
    match outcome {
        Outcome::Done(payload) => Answer::Message { id, payload },
        Outcome::Mismatch(mismatch) => Answer::Fault(Fault::Mismatch(mismatch)),
        Outcome::Malformed { kind, at } => Answer::Fault(Fault::Malformed { kind, at }),
        Outcome::OutputTooLarge => Answer::Fault(Fault::OutputTooLarge),
    }
}

fn fault_of_transcoding(fault: TranscodeFault) -> Fault
    ensures { result ≡ fault_of_transcoding fault }
{
    match fault {
        TranscodeFault::NoProgram(PublishError::ProgramTooLarge) => Fault::ProgramTooLarge,
        TranscodeFault::NoProgram(PublishError::Clash) => Fault::Clash,
        TranscodeFault::NoProgram(PublishError::NoMemory) => Fault::NoMemory,
        TranscodeFault::Full => Fault::Full,
        TranscodeFault::NotFinished => Fault::NotFinished,
        TranscodeFault::NoMemory => Fault::NoMemory,
    }
}

/// The schemas that the two ids of a message name.
#[derive(Drop)]
pub struct NamedPair<E: Drop> {
    pub writer: NamedSchema<Receipt, E>,
    pub reader: NamedSchema<Receipt, E>,
}

/// The answer to a message, and the schemas that it rests on.
#[derive(Drop)]
pub struct Rewritten<E: Drop> {
    pub answer: Answer,
    pub pair: NamedPair<E>,
}

/// Why a message has no pair of schemas, and its reader's, where that was found.
#[derive(Drop)]
pub struct Unpaired<E: Drop> {
    pub fault: Fault,
    pub reader: Option<NamedSchema<Receipt, E>>,
}

/// A message, and the id of the schema that it is to be rewritten for.
#[derive(Drop)]
pub(crate) struct MessageFor {
    pub(crate) reader: u32,
    pub(crate) message: Message,
}

/// The two schemas of a message, and its payload, in the memory that it was received in.
#[derive(Drop)]
struct Opened<E: Drop> {
    pair: NamedPair<E>,
    payload: Vec<u8>,
}

/// Returns what becomes of a payload between the schemas of a pair, as the answer to the reader of an id, and the
/// pair.
fn rewrite_opened<R: Wait, T: Transcode, G: Gate, E: Drop>(
    rt: &R,
    transcoder: &T,
    seat: &mut T::Seat,
    gate: &mut G,
    id: u32,
    opened: Opened<E>,
) -> Rewritten<E>
    requires seat { T.rests transcoder.now seat.old }
    requires writer { IsReceiptOf (T.cells transcoder.now) opened.pair.writer.receipt }
    requires reader { IsReceiptOf (T.cells transcoder.now) opened.pair.reader.receipt }
    requires payload { vec_len opened.payload ≤ MOST_PAYLOAD }
    ensures seat { T.rests transcoder.now seat.new }
    ensures pair { result.pair ≡ opened.pair }
    ensures answer { TellsOutcome (IsWhyNone (T.refuses transcoder.now seat.old seat.new)
        (SaidNo G.says gate.old gate.new)) opened.pair.writer.receipt opened.pair.reader.receipt id
        opened.payload.items (answer_of result.answer) }
{
    let Opened { pair, payload } = opened;
    let NamedPair { writer, reader } = pair;
    let NamedSchema { receipt, seen } = writer;
    let (writer, writer_seen) = (receipt, seen);
    let NamedSchema { receipt, seen } = reader;
    let mut receipts = ReceiptPair {
        writer,
        reader: receipt,
    };
    let answer = match transcoder.transcode(rt, seat, gate, &mut receipts, payload) {
        Ok(outcome) => answer_of_outcome(id, outcome),
        Err(fault) => Answer::Fault(fault_of_transcoding(fault)),
    };
    let ReceiptPair { writer, reader } = receipts;
    let writer = NamedSchema {
        receipt: writer,
        seen: writer_seen,
    };
    let reader = NamedSchema {
        receipt: reader,
        seen,
    };
    Rewritten {
        answer,
        pair: NamedPair { writer, reader },
    }
}

/// Opens a message for the reader of an id: finds its two schemas, and its payload.
///
/// First the reader is looked up, then the message is opened, then its writer is looked up.
fn open<S: Schemas>(
    schemas: &mut S,
    id: u32,
    message: Message,
) -> Result<Opened<S::Seen>, Unpaired<S::Seen>>
    ensures same { schemas.new ≡ schemas.old }
    ensures found { IfOk result (λ opened. IsPaired (S.cells schemas.old) (S.names schemas.old) id message
        opened.pair.writer opened.pair.reader opened.payload.items) }
    ensures no_reader { IfErr result (λ u. IfNone u.reader (S.refuses schemas.old id u.fault)) }
    ensures reader { IfErr result (λ u. IfSome u.reader (λ n. IsReceiptOf (S.cells schemas.old) n.receipt
        × S.names schemas.old id n.receipt n.seen × HasNoWriter (S.refuses schemas.old) message u.fault)) }
{
    let reader = match schemas.schema_of(id) {
        Ok(reader) => reader,
        Err(fault) => return Err(Unpaired {
            fault,
            reader: None,
        }),
    };
    let (writer_id, payload) = match message.open() {
        Ok(opened) => opened,
        Err(error) => {
            let fault = Fault::BadEnvelope(error);
            return Err(Unpaired {
                fault,
                reader: Some(reader),
            });
        }
    };
    match schemas.schema_of(writer_id) {
        Ok(writer) => {
            let pair = NamedPair { writer, reader };
            Ok(Opened { pair, payload })
        }
        Err(fault) => Err(Unpaired {
            fault,
            reader: Some(reader),
        }),
    }
}

/// Rewrites a message for the reader of an id. Returns the answer, with the two schemas that it rests on; the error
/// says why there are no two.
pub(crate) fn rewrite<R: Wait, S: Schemas, T: Transcode, G: Gate>(
    rt: &R,
    schemas: &mut S,
    transcoder: &T,
    seat: &mut T::Seat,
    gate: &mut G,
    asked: MessageFor,
) -> Result<Rewritten<S::Seen>, Unpaired<S::Seen>>
    requires cells { T.cells transcoder.now ≡ S.cells schemas.old }
    requires seat { T.rests transcoder.now seat.old }
    requires message { length asked.message ≤ MOST_BODY }
    ensures same { schemas.new ≡ schemas.old }
    ensures seat { T.rests transcoder.now seat.new }
    ensures told { IfOk result (λ r. TellsNamed (IsWhyNone (T.refuses transcoder.now seat.old seat.new)
        (SaidNo G.says gate.old gate.new)) (S.cells schemas.old) (S.names schemas.old) asked.reader asked.message
        r.pair.writer r.pair.reader (answer_of r.answer)) }
    ensures no_reader { IfErr result (λ u. IfNone u.reader (S.refuses schemas.old asked.reader u.fault)) }
    ensures reader { IfErr result (λ u. IfSome u.reader (λ n. IsReceiptOf (S.cells schemas.old) n.receipt
        × S.names schemas.old asked.reader n.receipt n.seen
        × HasNoWriter (S.refuses schemas.old) asked.message u.fault)) }
{
    let MessageFor { reader, message } = asked;
    let opened = open(schemas, reader, message)?;
    Ok(rewrite_opened(rt, transcoder, seat, gate, reader, opened))
}

/// Rewrites a message for the reader of an id of this service's registry, and returns the answer.
pub(crate) fn tell_message<R: Wait, T: Transcode, G: Gate>(
    rt: &R,
    app: &App<'_, T>,
    seat: &mut T::Seat,
    gate: &mut G,
    asked: MessageFor,
) -> Told
    requires cells { T.cells app.now.transcoder.now ≡ app.now.registry.now }
    requires seat { T.rests app.now.transcoder.now seat.old }
    requires message { length asked.message ≤ MOST_BODY }
    ensures seat { T.rests app.now.transcoder.now seat.new }
    ensures told { TellsNoReader result.evidence (answer_of result.answer)
        ⊎ TellsNoWriter app.now.registry.now asked.reader asked.message result.evidence
        (answer_of result.answer)
        ⊎ TellsMessage (IsWhyNone (T.refuses app.now.transcoder.now seat.old seat.new)
        (SaidNo G.says gate.old gate.new)) app.now.registry.now asked.reader asked.message result.evidence
        (answer_of result.answer) }
{
    let mut schemas = OwnSchemas {
        registry: app.registry,
    };
    match rewrite(rt, &mut schemas, app.transcoder, seat, gate, asked) {
        Ok(Rewritten { answer, pair }) => {
            let NamedPair { writer, reader } = pair;
            let evidence = Evidence::Pair {
                writer: writer.receipt,
                reader: reader.receipt,
            };
            Told { answer, evidence }
        }
        Err(Unpaired { fault, reader }) => match reader {
            Some(reader) => Told {
                answer: Answer::Fault(fault),
                evidence: Evidence::Shown(reader.receipt),
            },
            None => refused(fault),
        },
    }
}

/// A source that says which schema an id names. The schemas are those of one registry's receipts.
pub trait Schemas {
    ghost use Rattle.std.specs.Prelude.{◌≡◌, ℕ, List, IfErr, IfOk};
    ghost use Rattle.spec_registry.specs.Receipt.{Shown, IsReceiptOf};
    ghost use Rattle.spec_service.specs.declared.fault.Fault.{Fault as Refusal};

    /// What shows that an id names a schema.
    type Seen: Drop;

    // The names of the cells of the registry whose receipts it returns.
    ghost cells: { Self → List ℕ };

    // What shows that an id names the schema of a receipt.
    ghost names: { Self → ℕ → Shown → Self.Seen → Type 0 };

    // Why an id names none.
    ghost refuses: { Self → ℕ → Refusal → Type 0 };

    /// Returns the schema that an id names. The error says why it names none. It never waits.
    fn schema_of(&mut self, id: u32) -> Result<NamedSchema<Receipt, Self::Seen>, Fault>
        ensures same { self.new ≡ self.old }
        ensures named { IfOk result (λ n. IsReceiptOf (cells self.old) n.receipt
            × names self.old id n.receipt n.seen) }
        ensures refused { IfErr result (λ f. refuses self.old id f) };
}

/// The schemas of this service's own registry, by its own ids. Callers see them as the names of the registry's cells.
#[derive(Drop)]
pub(crate) struct OwnSchemas<'a> {
    pub(crate) registry: &'a SharedRegistry,
}

impl<'a> Model for OwnSchemas<'a> {
    ghost use Rattle.std.specs.Prelude.{ℕ, List};

    ghost Value = { List ℕ };

    ghost view = { λ s. s.registry.now };
}

impl<'a> Schemas for OwnSchemas<'a> {
    ghost use Rattle.std.specs.Prelude.{◌≡◌};
    ghost use Rattle.spec_service.specs.declared.fault.Fault.TheVariants as faults;

    type Seen = ();

    ghost cells = { λ s. s };

    ghost names = { λ s id receipt seen. receipt.id ≡ id };

    ghost refuses = { λ s id f. f ≡ faults.NoSchema };

    fn schema_of(&mut self, id: u32) -> Result<NamedSchema<Receipt, ()>, Fault> {
        match self.registry.find(id) {
            Some((_, receipt)) => Ok(NamedSchema { receipt, seen: () }),
            None => Err(Fault::NoSchema),
        }
    }
}
