//! The table of slots: its words, its seats and its rule, and the kinds of step on it. No value of a kind is made: it
//! names what a step does.

ghost use Rattle.std.specs.Prelude.{◌<◌, ◌≡◌, IfOk};
ghost use Rattle.session_pool_slots.specs.Words.{IsWordOf, slots};
ghost use Rattle.session_pool_slots.specs.Known.{IsInOrder, Known, blank};
ghost use Rattle.session_pool_slots.specs.Account.{has_ended};
ghost use Rattle.session_pool_slots.specs.Leaving.{word_after, word_after_slice};
ghost use Rattle.session_pool_slots.specs.Kinds.{claimed, freed, given, looked, returned, stolen, taken, told};

use atomic_table::{Play, Seat, Split, Table, TableRule};
use session_core::{Session, Stopped};
use std::alloc::{AllocError, Global};
use std::marker::Model;

/// A table of `SLOTS` slots, each with a word and room for a session, which clients and workers share.
#[derive(Drop)]
pub struct SessionSlots<'p> {
    pub(crate) alloc: Global,
    pub(crate) table: Table<Option<Session<'p>>, View, (), Order, Global>,
    ghost sized: { (table.shared.table_id.words ≡ slots) × (table.shared.table_id.slots ≡ slots) },
}

/// A client's or a worker's seat at a table: what it knows of the slots, and the slots whose content is out with it.
#[derive(Drop)]
pub struct SlotSeat<'p> {
    pub(crate) seat: Seat<Option<Session<'p>>, View>,
}

impl<'p> SessionSlots<'p> {
    ghost use Rattle.session_pool_slots.specs.Seats.{IsSeatOf, Rests, knows};

    /// Returns a table of slots that are free and empty, and its first seat.
    pub fn new(alloc: Global) -> Result<(SessionSlots<'p>, SlotSeat<'p>), AllocError>
        ensures seat { IfOk result (λ made. Rests made.0 made.1) }
        ensures blank { IfOk result (λ made. knows made.1 ≡ blank) }
    {
        let (table, seat) = Table::vacant(alloc, &[FREE; SLOTS], SLOTS, &())?;
        Ok((SessionSlots { alloc, table }, SlotSeat { seat }))
    }

    /// Returns a further seat, which knows nothing yet. The seat that is there stays as it is.
    pub fn another(&self, seat: &mut SlotSeat<'p>) -> SlotSeat<'p>
        requires { IsSeatOf self.now seat.old }
        ensures same { IsSeatOf self.now seat.new × (seat.new.seat.me ≡ seat.old.seat.me) }
        ensures seat { Rests self.now result }
        ensures blank { knows result ≡ blank }
    {
        SlotSeat {
            seat: self.table.shared.split_seat::<Newcomer>(&mut seat.seat),
        }
    }
}

/// What a seat knows. No value of it is made.
pub struct View {
    pub ghost known: { Known },
}

impl Model for View {
    ghost use Rattle.std.specs.Borrow.{ftrue};
    ghost use Rattle.session_pool_slots.specs.Known.{Known};

    ghost Value = { Known };

    ghost view = { λ v. v.known };

    ghost also_owns = { λ _. ftrue };
}

/// How many slots there are.
pub const SLOTS: usize = 256;

/// The word of a slot that no client has.
pub const FREE: u64 = 0;

/// The word of a slot whose session is at home and waits for its client.
pub const WAITING: u64 = 1;

/// The word of a slot whose session is at home and may go on.
pub const READY: u64 = 2;

/// The word of a slot whose session is at home and has ended.
pub const ENDED: u64 = 3;

/// The word of a slot whose session is out with its client.
pub const WITH_CLIENT: u64 = 4;

/// The word of a slot whose session is out with a worker.
pub const WITH_WORKER: u64 = 5;

/// Returns the word of a session after a client's call that lets it go on: ended where it has, else ready.
pub fn word_after(session: &Session) -> u64
    ensures word { result ≡ word_after session.now }
    ensures fits { IsWordOf (has_ended session.now) result }
{
    if session.has_ended() { ENDED } else { READY }
}

/// Returns the word of a session after a slice, by why no more rows were taken.
pub fn word_after_slice(stopped: Stopped) -> u64
    ensures { result ≡ word_after_slice stopped }
{
    match stopped {
        Stopped::Ended => ENDED,
        Stopped::Spent => READY,
        Stopped::Broke | Stopped::Waits => WAITING,
    }
}

/// The rule: what is at each slot, by its word.
pub struct Order;

impl<'p> TableRule<Option<Session<'p>>, View, ()> for Order {
    ghost holds = { λ _. IsInOrder };

    ghost first = { λ _. blank };
}

/// A seat is made beside another, which keeps all that it knows.
pub struct Newcomer;

impl Split<View> for Newcomer {
    ghost left = { λ v. v };

    ghost right = { λ v. blank };
}

/// A seat looks at a word.
pub struct Look;

impl<'p> Play<Option<Session<'p>>, View> for Look {
    ghost then = { looked };
}

/// A client claims a free slot.
pub struct Claim;

impl<'p> Play<Option<Session<'p>>, View> for Claim {
    ghost then = { claimed };
}

/// A client takes its session out.
pub struct Take;

impl<'p> Play<Option<Session<'p>>, View> for Take {
    ghost then = { taken };
}

/// A client gives its session back, no rows on.
pub struct Give;

impl<'p> Play<Option<Session<'p>>, View> for Give {
    ghost then = { given };
}

/// A client gives its session back, some rows on, and learns how many were taken of it.
pub struct Tell;

impl<'p> Play<Option<Session<'p>>, View> for Tell {
    ghost then = { told };
}

/// A client frees its slot.
pub struct Free;

impl<'p> Play<Option<Session<'p>>, View> for Free {
    ghost then = { freed };
}

/// A worker takes a session that is ready.
pub struct Steal;

impl<'p> Play<Option<Session<'p>>, View> for Steal {
    ghost then = { stolen };
}

/// A worker gives its session back.
pub struct Return;

impl<'p> Play<Option<Session<'p>>, View> for Return {
    ghost then = { returned };
}
