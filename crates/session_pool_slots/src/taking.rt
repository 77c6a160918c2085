//! The steps on slots: a client claims a free one, takes its session out, gives it back, or frees the slot; a worker
//! takes a session that is ready, runs it, and gives it back.

ghost use Rattle.std.specs.Prelude.{◌++◌, ◌<◌, ◌∷◌, ◌≡◌, ◌≢◌, ◌≤◌, MatchOption, MatchResult, Some, []};
ghost use mathlib.Core.Option.{none};
ghost use Rattle.atomic_table.specs.Table.{step};
ghost use Rattle.session_pool_slots.specs.Words.{IsWordOf, free, ready, slots, with_client, with_worker};
ghost use Rattle.session_pool_slots.specs.Results.{Freed, GaveBack, HasIn, HasNoted, HasOut, HasSame, IsOut, words_of};
ghost use Rattle.session_pool_slots.specs.Account.{NoRows, RowsOn, has_ended, kept, told_all};
ghost use Rattle.session_pool_slots.specs.Known.{PassData, pass_of};
ghost use Rattle.session_pool_slots.specs.Kinds.{taken};
ghost use Rattle.spec_sessions.specs.Session.{Session, begun};

use crate::slots::{
    Claim, Free, Give, Look, Return, SessionSlots, SlotSeat, Steal, Take, Tell, word_after_slice,
};
use crate::{FREE, READY, SLOTS, WITH_CLIENT, WITH_WORKER};
use machine::PlannedProgram;
use session_core::Session;
use thiserror::Error;

/// A worker has the session.
#[derive(Clone, Copy, Debug, PartialEq, Eq, Error)]
#[error("a worker has the session")]
pub struct Busy;

/// A session that was taken out of its slot, and the word that was found there.
#[derive(Drop)]
pub struct TakenOut<'p> {
    pub session: Session<'p>,
    pub word: u64,
}

impl<'p> SessionSlots<'p> {
    ghost use Rattle.session_pool_slots.specs.Seats.{HoldsEmpty, HoldsNothing, IsSeatOf, Rests, knows};
    ghost use Rattle.session_pool_slots.specs.Taking.{Expects, FindsBusy, HasTaken, TakesOut};

    /// Tries to take the client's session from this word. Returns the word that was found.
    fn take_from(&self, seat: &mut SlotSeat<'p>, slot: u32, expected: u64) -> u64
        requires seat { IsSeatOf self.now seat.old }
        requires pass { Expects (knows seat.old) slot expected }
        ensures seat { IsSeatOf self.now seat.new }
        ensures taken { taken (step slots slot expected with_client none) seat.old.seat.me result seat.new.seat.me }
    {
        self.table
            .shared
            .compare_exchange::<Take>(&mut seat.seat, slot as usize, expected, WITH_CLIENT)
    }

    /// Takes the client's session, unless a worker has it. Returns the word that was found.
    fn seize(&self, seat: &mut SlotSeat<'p>, slot: u32) -> u64
        requires seat { Rests self.now seat.old }
        requires pass { HasIn (knows seat.old) slot }
        ensures seat { IsSeatOf self.now seat.new }
        ensures taken { result ≢ with_worker → (pass : PassData) → pass_of slot (knows seat.old) ≡ Some pass
            → HasTaken seat.old slot pass result seat.new }
        ensures busy { result ≡ with_worker → FindsBusy seat.old slot seat.new }
    {
        let found = self.take_from(seat, slot, READY);
        if found == WITH_WORKER || found == READY {
            return found;
        }
        self.take_from(seat, slot, found);
        found
    }

    /// Takes the client's session out of its slot, and returns it with the word that was found. `Busy` where a worker
    /// has it.
    pub fn take_out(&self, seat: &mut SlotSeat<'p>, slot: u32) -> Result<TakenOut<'p>, Busy>
        requires seat { Rests self.now seat.old }
        requires pass { HasIn (knows seat.old) slot }
        ensures seat { IsSeatOf self.now seat.new }
        ensures taken { MatchResult result
            (λ taken. TakesOut seat.old slot taken.word taken.session seat.new)
            (λ _. FindsBusy seat.old slot seat.new) }
    {
        let word = self.seize(seat, slot);
        if word == WITH_WORKER {
            return Err(Busy);
        }
        let session = self
            .table
            .shared
            .exchange(&mut seat.seat, slot as usize, None)
            .unwrap();
        Ok(TakenOut { session, word })
    }

    /// Puts the session that the client took out back into its slot, no rows on, with this word.
    pub fn give_back(&self, seat: &mut SlotSeat<'p>, slot: u32, session: Session<'p>, word: u64)
        requires seat { IsSeatOf self.now seat.old × HoldsEmpty slot seat.old }
        requires pass { HasOut (knows seat.old) slot
            (λ pass before. NoRows before session × (pass.account.seen ≤ session.count)) }
        requires word { IsWordOf (has_ended session) word }
        ensures seat { Rests self.now seat.new }
        ensures gave { GaveBack kept (knows seat.old) slot session.entry word (knows seat.new) }
    {
        drop(
            self.table
                .shared
                .exchange(&mut seat.seat, slot as usize, Some(session)),
        );
        self.table
            .shared
            .store::<Give>(&mut seat.seat, slot as usize, word);
    }

    /// Puts the session that the client took out back into its slot, some rows on, with this word. The client learns
    /// how many rows were taken of it in all.
    pub fn tell_back(&self, seat: &mut SlotSeat<'p>, slot: u32, session: Session<'p>, word: u64)
        requires seat { IsSeatOf self.now seat.old × HoldsEmpty slot seat.old }
        requires pass { HasOut (knows seat.old) slot (λ pass before. RowsOn before session) }
        requires word { IsWordOf (has_ended session) word }
        ensures seat { Rests self.now seat.new }
        ensures gave { GaveBack told_all (knows seat.old) slot session.entry word (knows seat.new) }
    {
        drop(
            self.table
                .shared
                .exchange(&mut seat.seat, slot as usize, Some(session)),
        );
        self.table
            .shared
            .store::<Tell>(&mut seat.seat, slot as usize, word);
    }

    /// Frees the slot of the session that the client took out. The slot keeps a session, for whoever claims it next.
    pub fn free(&self, seat: &mut SlotSeat<'p>, slot: u32, kept: Session<'p>)
        requires seat { IsSeatOf self.now seat.old × HoldsEmpty slot seat.old }
        requires pass { IsOut (knows seat.old) slot }
        ensures seat { Rests self.now seat.new }
        ensures freed { Freed (knows seat.old) slot (knows seat.new) }
    {
        drop(
            self.table
                .shared
                .exchange(&mut seat.seat, slot as usize, Some(kept)),
        );
        self.table
            .shared
            .store::<Free>(&mut seat.seat, slot as usize, FREE);
    }
}

/// Returns a session of a program that has just begun: the one that a free slot kept, set back, or else the one that
/// was offered.
fn renewed<'p>(
    kept: Option<Session<'p>>,
    offer: Option<Session<'p>>,
    program: &'p PlannedProgram,
) -> Session<'p>
    requires { offer ≡ Some (begun program.now) }
    ensures { result ≡ begun program.now }
{
    match kept {
        Some(mut session) => {
            session.reset(program);
            session
        }
        None => offer.unwrap(),
    }
}

impl<'p> SessionSlots<'p> {
    ghost use Rattle.session_pool_slots.specs.Seats.{HoldsNothing, IsSeatOf, Rests, knows};
    ghost use Rattle.session_pool_slots.specs.Opening.{FindsNoneFree, HasBegun, HasClaimed, IsClaimed, LooksTaken};

    /// Begins a session of a program in the first slot that is found free, and leaves it ready. Returns the slot.
    /// `None` where none is.
    pub fn begin(&self, seat: &mut SlotSeat<'p>, program: &'p PlannedProgram) -> Option<u32>
        requires { Rests self.now seat.old }
        ensures seat { Rests self.now seat.new }
        ensures begun { MatchOption result
            (FindsNoneFree (knows seat.old) (knows seat.new))
            (λ slot. HasBegun (knows seat.old) slot program.now (knows seat.new)) }
    {
        let offer = Some(Session::begin(self.alloc, program));
        for slot in 0..SLOTS as u32 {
            if self.claim_at(seat, slot, &offer) == FREE {
                self.fill(seat, slot, offer, program);
                return Some(slot);
            }
        }
        None
    }

    /// Looks at a slot, and claims it for the session that is offered where it is free. Returns the word that was
    /// found last.
    fn claim_at(&self, seat: &mut SlotSeat<'p>, slot: u32, offer: &Option<Session<'p>>) -> u64
        requires seat { Rests self.now seat.old }
        requires offer { (slot < slots) × ((session : Session) × (offer.now ≡ Some session)) }
        ensures seat { IsSeatOf self.now seat.new }
        ensures found { result ≡ free → (knows seat.new).found
            ≡ (knows seat.old).found ++ words_of slot (free ∷ free ∷ []) }
        ensures claimed { result ≡ free → (session : Session) → offer.now ≡ Some session
            → HasClaimed seat.old slot session seat.new }
        ensures not { result ≢ free → LooksTaken seat.old slot seat.new }
    {
        let found = self.look(seat, slot);
        if found != FREE {
            return found;
        }
        self.claim(seat, slot, offer)
    }

    /// Claims a slot for the session that is offered, where the slot is free. Returns the word that was found.
    fn claim(&self, seat: &mut SlotSeat<'p>, slot: u32, offer: &Option<Session<'p>>) -> u64
        requires seat { Rests self.now seat.old }
        requires offer { (slot < slots) × ((session : Session) × (offer.now ≡ Some session)) }
        ensures seat { IsSeatOf self.now seat.new }
        ensures found { (knows seat.new).found ≡ (knows seat.old).found ++ words_of slot (result ∷ []) }
        ensures claimed { result ≡ free → (session : Session) → offer.now ≡ Some session
            → HasClaimed seat.old slot session seat.new }
        ensures not { result ≢ free → HoldsNothing seat.new × HasSame (knows seat.old) (knows seat.new) }
    {
        self.table
            .shared
            .compare_exchange_with::<Claim>(&mut seat.seat, slot as usize, FREE, WITH_CLIENT, offer)
    }

    /// Puts a session that begins into the slot that was claimed for it, and leaves it ready.
    fn fill(
        &self,
        seat: &mut SlotSeat<'p>,
        slot: u32,
        offer: Option<Session<'p>>,
        program: &'p PlannedProgram,
    )
        requires seat { IsSeatOf self.now seat.old }
        requires offer { offer ≡ Some (begun program.now) }
        requires claimed { IsClaimed slot (begun program.now) seat.old }
        ensures seat { Rests self.now seat.new }
        ensures gave { GaveBack kept (knows seat.old) slot (begun program.now) ready (knows seat.new) }
    {
        let kept = self
            .table
            .shared
            .exchange(&mut seat.seat, slot as usize, None);
        let session = renewed(kept, offer, program);
        self.give_back(seat, slot, session, READY);
    }
}

/// What a worker's slice of a session came to.
#[derive(Clone, Copy, Debug, PartialEq, Eq)]
pub struct RunSlice {
    /// How many rows were taken.
    pub rows: u64,
    /// The word that was left.
    pub word: u64,
}

impl<'p> SessionSlots<'p> {
    ghost use Rattle.session_pool_slots.specs.Seats.{HoldsNothing, IsSeatOf, Rests, knows};
    ghost use Rattle.session_pool_slots.specs.Working.{FindsNoneReady, LooksUnready, Runs, Sees, TakesFirst};

    /// Takes the session of a slot, where it is ready. Returns the word that was found.
    fn take_ready(&self, seat: &mut SlotSeat<'p>, slot: u32) -> u64
        requires seat { Rests self.now seat.old }
        requires slot { slot < slots }
        ensures seat { IsSeatOf self.now seat.new }
        ensures found { (knows seat.new).found ≡ (knows seat.old).found ++ words_of slot (result ∷ []) }
        ensures same { HasSame (knows seat.old) (knows seat.new) }
        ensures taken { result ≡ ready → HasNoted has_ended seat.new.seat.me slot }
        ensures not { result ≢ ready → HoldsNothing seat.new }
    {
        self.table
            .shared
            .compare_exchange::<Steal>(&mut seat.seat, slot as usize, READY, WITH_WORKER)
    }

    /// Looks at the word of a slot, and returns it. A session that is out with the seat stays out.
    pub fn look(&self, seat: &mut SlotSeat<'p>, slot: u32) -> u64
        requires seat { IsSeatOf self.now seat.old }
        requires slot { slot < slots }
        ensures seat { IsSeatOf self.now seat.new }
        ensures sees { Sees slot result seat.old seat.new }
    {
        self.table
            .shared
            .load::<Look>(&mut seat.seat, slot as usize)
    }

    /// Looks at a slot, and takes its session where it is ready. Returns the word that was found last.
    pub fn take_at(&self, seat: &mut SlotSeat<'p>, slot: u32) -> u64
        requires seat { Rests self.now seat.old }
        requires slot { slot < slots }
        ensures seat { IsSeatOf self.now seat.new }
        ensures same { HasSame (knows seat.old) (knows seat.new) }
        ensures taken { result ≡ ready → HasNoted has_ended seat.new.seat.me slot
            × ((knows seat.new).found ≡ (knows seat.old).found ++ words_of slot (ready ∷ ready ∷ [])) }
        ensures not { result ≢ ready → LooksUnready seat.old slot seat.new }
    {
        let found = self.look(seat, slot);
        if found != READY {
            return found;
        }
        self.take_ready(seat, slot)
    }

    /// Takes the session of the first slot that is ready when it is looked at and when it is taken.
    pub fn scan(&self, seat: &mut SlotSeat<'p>) -> Option<u32>
        requires { Rests self.now seat.old }
        ensures seat { IsSeatOf self.now seat.new }
        ensures same { HasSame (knows seat.old) (knows seat.new) }
        ensures found { MatchOption result
            (FindsNoneReady seat.old seat.new)
            (λ slot. TakesFirst seat.old slot seat.new) }
    {
        for slot in 0..SLOTS as u32 {
            if self.take_at(seat, slot) == READY {
                return Some(slot);
            }
        }
        None
    }

    /// Runs the session that the worker took, for a slice of at most `limit` rows, and gives it back.
    pub fn run(&self, seat: &mut SlotSeat<'p>, slot: u32, limit: u64) -> RunSlice
        requires seat { IsSeatOf self.now seat.old }
        requires note { HasNoted has_ended seat.old.seat.me slot }
        ensures seat { Rests self.now seat.new }
        ensures ran { Runs (knows seat.old) slot limit result (knows seat.new) }
    {
        let mut session = self
            .table
            .shared
            .exchange(&mut seat.seat, slot as usize, None)
            .unwrap();
        let slice = session.slice(limit);
        let word = word_after_slice(slice.stopped);
        drop(
            self.table
                .shared
                .exchange(&mut seat.seat, slot as usize, Some(session)),
        );
        self.table
            .shared
            .store::<Return>(&mut seat.seat, slot as usize, word);
        RunSlice {
            rows: slice.rows,
            word,
        }
    }
}
