//! The pool and its seats; passes, each of which is a client's right to a session; and the calls of a client, which
//! opens a session, feeds it, and asks how it ended, or abandons it.

ghost use Rattle.std.specs.Prelude.{◌<◌, ◌≡◌, ◌≤◌, All, IfErr, IfOk, MatchOption, OnErr, OnOk, Some, true, vec_len};
ghost use Rattle.session_pool.specs.declared.limits.TheConstants.{MOST_CLIENTS, MOST_WORKERS};
ghost use Rattle.spec_machine.specs.Code.{code_of};
ghost use Rattle.spec_registry.specs.Receipt.{IsReceiptOf};
ghost use Rattle.session_pool.specs.Opening.{IsFor, IsWhyNotOpened};
ghost use Rattle.spec_sessions.specs.Changes.{finished, with_piece};
ghost use Rattle.session_pool_slots.specs.Words.{with_worker};
ghost use Rattle.session_pool_slots.specs.Account.{has_ended, with_close, with_sent};
ghost use Rattle.spec_sessions.specs.Session.{begun};
ghost use Rattle.session_pool.specs.Finishing.{EndsOf};

use crate::refusals::{NotYet, OpenError, PieceError, ReturnedPass, ReturnedPiece};
use crate::{JobSeat, Jobs};
use avro_schema::Schema;
use machine::PlannedProgram;
use program_cache::{Compiled, PairRefusal, ProgramCache};
use program_correctness::program_ends_with_the_outcome;
use schema_registry::Receipt;
use session_core::Session;
use session_pool_slots::{Busy, SessionSlots, SlotSeat, word_after};
pub use spec_sessions::Finished;
use std::alloc::{AllocError, Global};
use std::marker::Model;
use std::snapshot::Snapshot;

/// A pool of sessions that threads share, in slots that clients and workers take in turn, over a cache of programs.
#[derive(Drop)]
pub struct SessionPool<'p> {
    pub(crate) alloc: Global,
    pub(crate) cache: &'p ProgramCache<'p>,
    pub(crate) slots: SessionSlots<'p>,
    pub(crate) jobs: Jobs,
}

/// A client's seat: what it knows of the slots, and what its last `open` found in the cell of its pair, where that was
/// of another pair.
#[derive(Drop)]
pub struct ClientSeat<'p> {
    pub(crate) slots: SlotSeat<'p>,
    pub(crate) other_pair: Option<&'p Compiled>,
}

/// A worker's seat: what it knows of the slots, and its jobs.
#[derive(Drop)]
pub struct WorkerSeat<'p> {
    pub(crate) slots: SlotSeat<'p>,
    pub(crate) jobs: JobSeat,
}

impl<'p> ClientSeat<'p> {
    ghost use Rattle.program_cache.specs.Pairs.{publish_error};
    ghost use Rattle.session_pool.specs.Opening.{shown_by};
    ghost use Rattle.session_pool.specs.declared.refusals.OpenError.{OpenError};

    /// Returns what the last `open` found in the cell of its pair, which is of another pair, where that returned
    /// `Clash`. `None` after any other result, and before the first.
    pub fn other_pair(&self) -> Option<&'p Compiled>
        ensures { result ≡ self.now.other_pair }
    {
        self.other_pair
    }

    /// Keeps the other pair that a refusal of the cache shows, or none. Returns the refusal without it.
    pub(crate) fn note(&mut self, refusal: PairRefusal<'p>) -> OpenError
        ensures error { result ≡ OpenError.NoProgram (publish_error refusal.entry) }
        ensures slots { self.new.slots ≡ self.old.slots }
        ensures other { self.new.other_pair ≡ shown_by refusal.entry }
    {
        self.other_pair = match refusal {
            PairRefusal::Clash(other) => Some(other),
            _ => None,
        };
        OpenError::NoProgram(refusal.publish_error())
    }
}

impl<'p> SessionPool<'p> {
    ghost use Rattle.session_pool.specs.Seats.{IsNewClient, IsNewWorker};
    ghost use Rattle.session_pool.specs.Calls.{IsEmpty};
    ghost use Rattle.session_pool.specs.JobSeats.{IsSeatOf};
    ghost use Rattle.session_pool_slots.specs.Seats as slots;

    /// Returns a pool whose slots are all free, with seats for `clients` clients, 1 to `MOST_CLIENTS`, and `workers`
    /// workers, 1 to `MOST_WORKERS`.
    pub fn new(
        alloc: Global,
        cache: &'p ProgramCache<'p>,
        clients: usize,
        workers: usize,
    ) -> Result<(SessionPool<'p>, Vec<ClientSeat<'p>>, Vec<WorkerSeat<'p>>), AllocError>
        requires clients { (1 ≤ clients) × (clients ≤ MOST_CLIENTS) }
        requires workers { (1 ≤ workers) × (workers ≤ MOST_WORKERS) }
        ensures cache { IfOk result (λ new. new.0.cache.now ≡ cache.now) }
        ensures counts { IfOk result (λ new. (vec_len new.1 ≡ clients) × (vec_len new.2 ≡ workers)) }
        ensures clients { IfOk result (λ new. All (IsNewClient new.0) new.1.items) }
        ensures workers { IfOk result (λ new. All (IsNewWorker new.0) new.2.items) }
    {
        let (jobs, job_seats) = Jobs::new(alloc, workers)?;
        let (slots, mut first) = SessionSlots::new(alloc)?;
        let pool = SessionPool {
            alloc,
            cache,
            slots,
            jobs,
        };
        let clients = pool.client_seats(&mut first, clients)?;
        let workers = pool.worker_seats(&mut first, job_seats)?;
        Ok((pool, clients, workers))
    }

    /// Returns the cache of programs that it uses.
    pub fn cache(&self) -> &'p ProgramCache<'p>
        ensures { result.now ≡ self.now.cache.now }
    {
        self.cache
    }

    /// Returns seats for `count` clients, made beside a first one.
    fn client_seats(
        &self,
        first: &mut SlotSeat<'p>,
        count: usize,
    ) -> Result<Vec<ClientSeat<'p>>, AllocError>
        requires { slots.IsSeatOf self.now.slots first.old }
        ensures first { slots.IsSeatOf self.now.slots first.new }
        ensures seats { IfOk result (λ seats. (vec_len seats ≡ count) × All (IsNewClient self.now) seats.items) }
    {
        let mut seats = Vec::new(self.alloc);
        for _ in 0..count {
            let slots = self.slots.another(first);
            seats.push(ClientSeat {
                slots,
                other_pair: None,
            })?;
        }
        Ok(seats)
    }

    /// Returns seats for the workers of these jobs, made beside a first one.
    fn worker_seats(
        &self,
        first: &mut SlotSeat<'p>,
        jobs: Vec<JobSeat>,
    ) -> Result<Vec<WorkerSeat<'p>>, AllocError>
        requires first { slots.IsSeatOf self.now.slots first.old }
        requires jobs { All (IsSeatOf self.now.jobs) jobs.items × All IsEmpty jobs.items }
        ensures seats { IfOk result (λ seats. (vec_len seats ≡ vec_len jobs)
            × All (IsNewWorker self.now) seats.items) }
    {
        let mut seats = Vec::new(self.alloc);
        for jobs in jobs {
            let slots = self.slots.another(first);
            seats.push(WorkerSeat { slots, jobs })?;
        }
        Ok(seats)
    }
}

/// A client's right to a session, and of which pair of schemas it is. Dropped, it leaves its slot taken.
#[derive(Drop)]
pub struct Pass {
    slot: u32,
    writer: Snapshot<Schema>,
    reader: Snapshot<Schema>,
    program: Snapshot<PlannedProgram>,
}

impl Model for Pass {
    ghost use Rattle.std.specs.Coded.{codes};
    ghost use Rattle.avro_types.specs.DatumCode.{datum_coded};
    ghost use Rattle.session_pool.specs.Pass.{LeadsToOutcomes};
    ghost use Rattle.spec_sessions.specs.Pass.{Pass};

    ghost Value = { Pass };

    ghost coded = { Prim.hlevel (codes, datum_coded) };

    ghost view = { λ p. record {
      slot = p.slot;
      pair = record { writer = p.writer.value; reader = p.reader.value; program = p.program.value };
    } };

    ghost invariant = { λ p. LeadsToOutcomes (record {
      writer = p.writer.value;
      reader = p.reader.value;
      program = p.program.value;
    }) };
}

impl Pass {
    ghost use Rattle.session_pool.specs.Pass.{LeadsToOutcomes};

    /// Returns a pass for a slot, with a session of a pair's program.
    pub(crate) fn new(slot: u32, writer: &Schema, reader: &Schema, program: &PlannedProgram) -> Pass
        requires { code_of writer.now.nodes reader.now.nodes ≡ Some program.now }
        ensures { result ≡ record {
          slot = slot;
          pair = record { writer = writer.now; reader = reader.now; program = program.now };
        } }
    {
        program_ends_with_the_outcome(writer.nodes(), reader.nodes()); // law
        Pass {
            slot,
            writer: Snapshot::of(writer),
            reader: Snapshot::of(reader),
            program: Snapshot::of(program),
        }
    }

    /// The law that its program is that of its pair, and that each end that the program comes to, run alone, is the
    /// outcome.
    pub fn leads_to_outcomes(&self)
        ensures { LeadsToOutcomes self.now.pair }
    {
        let _slot = self.slot; // read for the proof
    }

    /// Returns the index of its slot.
    pub fn slot(&self) -> u32
        ensures { result ≡ self.now.slot }
    {
        self.slot
    }
}

impl<'p> SessionPool<'p> {
    ghost use Rattle.session_pool.specs.Seats.{IsPassOf, KeepsAll, Rests};
    ghost use Rattle.session_pool.specs.Opening.{HasOpened};

    /// Opens a session of the program of two receipts' schemas, in the first slot that is found free, and leaves it
    /// ready. Returns the pass for it.
    ///
    /// `NoProgram` with `ProgramTooLarge` where the two have no program, then with `Clash` where their cell in the
    /// cache has what another pair was compiled to, which the seat shows from then on, or with `NoMemory` where the
    /// program found none; then `Full` where each slot was found taken, in order. It waits for no thread.
    pub fn open(
        &self,
        seat: &mut ClientSeat<'p>,
        writer: &mut Receipt,
        reader: &mut Receipt,
    ) -> Result<Pass, OpenError>
        requires seat { Rests self.now seat.old }
        requires writer { IsReceiptOf self.now.cache.now writer.old }
        requires reader { IsReceiptOf self.now.cache.now reader.old }
        ensures seat { Rests self.now seat.new }
        ensures receipts { (writer.new ≡ writer.old) × (reader.new ≡ reader.old) }
        ensures pass { IfOk result (IsPassOf seat.new) }
        ensures pair { IfOk result (IsFor writer.old.schema reader.old.schema) }
        ensures opened { IfOk result (λ pass. HasOpened seat.old pass seat.new) }
        ensures same { OnErr result (KeepsAll seat.old seat.new) }
        ensures why { IfErr result (λ error.
            IsWhyNotOpened error writer.old.schema reader.old.schema seat.old seat.new) }
    {
        let cache = self.cache;
        let pair = match cache.pair(writer, reader) {
            Ok(pair) => pair,
            Err(refusal) => return Err(seat.note(refusal)),
        };
        seat.other_pair = None;
        let program = pair.program();
        let Some(slot) = self.slots.begin(&mut seat.slots, program) else {
            return Err(OpenError::Full);
        };
        let registry = cache.registry();
        let writer = registry.schema(writer);
        let reader = registry.schema(reader);
        Ok(Pass::new(slot, writer, reader, program))
    }
}

impl<'p> SessionPool<'p> {
    ghost use Rattle.session_pool.specs.Seats.{Finds, HandsBackAs, IsPassOf, KeepsOthers, LetsGoOn, Rests, told};
    ghost use Rattle.session_pool.specs.Feeding.{IsWhyNoPiece, LeavesRefused};

    /// Appends a piece to a session's payload, and leaves the session ready, or ended where it has ended.
    ///
    /// `Busy` where a worker has it, `TooLarge` where all bytes would pass the limit of a payload, then `Ended` after
    /// `end`, `NoMemory` for a piece with bytes: then the piece is handed back, and the session is as it was.
    pub fn piece(
        &self,
        seat: &mut ClientSeat<'p>,
        pass: &Pass,
        piece: Vec<u8>,
    ) -> Result<(), ReturnedPiece>
        requires seat { Rests self.now seat.old }
        requires pass { IsPassOf seat.old pass.now }
        ensures seat { Rests self.now seat.new }
        ensures pass { IsPassOf seat.new pass.now }
        ensures others { KeepsOthers seat.old pass.now seat.new }
        ensures told { OnOk result (told seat.new pass.now ≡ with_sent piece.items (told seat.old pass.now)) }
        ensures hands { OnOk result (HandsBackAs (with_piece piece.items) seat.old pass.now seat.new) }
        ensures left { OnOk result (LetsGoOn seat.new pass.now) }
        ensures back { IfErr result (λ back. back.piece.items ≡ piece.items) }
        ensures same { OnErr result (told seat.new pass.now ≡ told seat.old pass.now) }
        ensures why { IfErr result (λ back. IsWhyNoPiece back.why (told seat.old pass.now) piece.items
            (Finds seat.old pass.now with_worker seat.new)) }
        ensures word { IfErr result (λ back. LeavesRefused back.why seat.old pass.now seat.new) }
    {
        let slot = pass.slot();
        let Ok(taken) = self.slots.take_out(&mut seat.slots, slot) else {
            return Err(ReturnedPiece {
                why: PieceError::Busy,
                piece,
            });
        };
        let found = taken.word;
        let mut session = taken.session;
        if let Err(refused) = session.piece_owned(piece) {
            self.slots.give_back(&mut seat.slots, slot, session, found);
            return Err(ReturnedPiece {
                why: PieceError::of(refused.why),
                piece: refused.piece,
            });
        }
        let word = word_after(&session);
        self.slots.give_back(&mut seat.slots, slot, session, word);
        Ok(())
    }

    /// Ends a session's payload, and leaves the session ready, or ended where it has ended. A second time changes
    /// nothing of the payload. `Busy` where a worker has it.
    pub fn end(&self, seat: &mut ClientSeat<'p>, pass: &Pass) -> Result<(), Busy>
        requires seat { Rests self.now seat.old }
        requires pass { IsPassOf seat.old pass.now }
        ensures seat { Rests self.now seat.new }
        ensures pass { IsPassOf seat.new pass.now }
        ensures others { KeepsOthers seat.old pass.now seat.new }
        ensures told { OnOk result (told seat.new pass.now ≡ with_close (told seat.old pass.now)) }
        ensures hands { OnOk result (HandsBackAs finished seat.old pass.now seat.new) }
        ensures left { OnOk result (LetsGoOn seat.new pass.now) }
        ensures same { OnErr result (told seat.new pass.now ≡ told seat.old pass.now) }
        ensures busy { OnErr result (Finds seat.old pass.now with_worker seat.new) }
    {
        let slot = pass.slot();
        let Ok(taken) = self.slots.take_out(&mut seat.slots, slot) else {
            return Err(Busy);
        };
        let mut session = taken.session;
        session.finish();
        let word = word_after(&session);
        self.slots.give_back(&mut seat.slots, slot, session, word);
        Ok(())
    }
}

/// Takes the end of a session that has ended, and returns it with the number of its rows. The session goes back to
/// its beginning.
fn come_to(session: &mut Session) -> Finished
    requires { has_ended session.old ≡ true }
    ensures finished { EndsOf session.old result }
    ensures begun { session.new ≡ begun session.old.program }
{
    let rows = session.machine().count();
    match session.take_end() {
        Some(end) => Finished { end, rows },
        None => unreachable!(),
    }
}

impl<'p> SessionPool<'p> {
    ghost use Rattle.session_pool.specs.Seats.{Finds, IsGone, IsPassOf, KeepsOthers, Rests, told};
    ghost use Rattle.spec_sessions.specs.Finishing.{Finishes};
    ghost use Rattle.session_pool.specs.Finishing.{IsWhyNotYet};

    /// Returns how a session ended and after how many rows, and frees its slot.
    ///
    /// `Busy` where a worker has it, `Pending` where it has not ended: then the pass is handed back, and the session
    /// is as it was.
    pub fn result(
        &self,
        seat: &mut ClientSeat<'p>,
        pass: Pass,
    ) -> Result<Finished, ReturnedPass<NotYet>>
        requires seat { Rests self.now seat.old }
        requires pass { IsPassOf seat.old pass }
        ensures seat { Rests self.now seat.new }
        ensures others { KeepsOthers seat.old pass seat.new }
        ensures gone { OnOk result (IsGone seat.new pass) }
        ensures finished { IfOk result (Finishes pass (told seat.old pass)) }
        ensures back { IfErr result (λ back. back.pass ≡ pass) }
        ensures still { OnErr result (IsPassOf seat.new pass) }
        ensures same { OnErr result (told seat.new pass ≡ told seat.old pass) }
        ensures why { IfErr result (λ back. IsWhyNotYet back.why seat.old pass seat.new) }
    {
        pass.leads_to_outcomes(); // law
        let slot = pass.slot();
        let Ok(taken) = self.slots.take_out(&mut seat.slots, slot) else {
            return Err(ReturnedPass {
                why: NotYet::Busy,
                pass,
            });
        };
        let found = taken.word;
        let mut session = taken.session;
        if !session.has_ended() {
            self.slots.give_back(&mut seat.slots, slot, session, found);
            return Err(ReturnedPass {
                why: NotYet::Pending,
                pass,
            });
        }
        let finished = come_to(&mut session);
        self.slots.free(&mut seat.slots, slot, session);
        Ok(finished)
    }

    /// Abandons a session, and frees its slot. `Busy` where a worker has it: then the pass is handed back.
    pub fn abandon(&self, seat: &mut ClientSeat<'p>, pass: Pass) -> Result<(), ReturnedPass<Busy>>
        requires seat { Rests self.now seat.old }
        requires pass { IsPassOf seat.old pass }
        ensures seat { Rests self.now seat.new }
        ensures others { KeepsOthers seat.old pass seat.new }
        ensures gone { OnOk result (IsGone seat.new pass) }
        ensures back { IfErr result (λ back. back.pass ≡ pass) }
        ensures still { OnErr result (IsPassOf seat.new pass) }
        ensures same { OnErr result (told seat.new pass ≡ told seat.old pass) }
        ensures busy { OnErr result (Finds seat.old pass with_worker seat.new) }
    {
        let slot = pass.slot();
        match self.slots.take_out(&mut seat.slots, slot) {
            Ok(taken) => {
                let mut session = taken.session;
                let _end = session.take_end();
                self.slots.free(&mut seat.slots, slot, session);
                Ok(())
            }
            Err(busy) => Err(ReturnedPass { why: busy, pass }),
        }
    }
}
