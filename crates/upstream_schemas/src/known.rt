//! The namings whose receipts are known.

ghost use Rattle.std.specs.Prelude.{◌≡◌, ◌<◌, ◌↔◌, IfOk, true};
ghost use Rattle.spec_registry.specs.Receipt.{IsReceiptOf};
ghost use Rattle.upstream_schemas.specs.Known.{IsKnownNaming, IsOfOne, IsTableOf};
ghost use Rattle.spec_service.specs.UpstreamNaming.{IsNamed};
ghost use Rattle.upstream_schemas.specs.declared.limits.TheConstants.{KNOWN};

use crate::cells::SharedCells;
use crate::found::FoundSchema;
use crate::held::Held;
use crate::limits::KNOWN;
use crate::upstream::Upstream;
use boxcar::slot::{OnceSlot, SlotRule};
use boxcar::tag::{Names, Tag};
use id_cells::KeptIdNote;
use schema_registry::KeptReceipt;
use std::alloc::{AllocError, Global};

/// A naming whose schema is that of a receipt: the note and the receipt, which were kept.
#[derive(Drop)]
pub(crate) struct KnownNaming<U: Upstream> {
    named: KeptIdNote<Held<U>>,
    receipt: KeptReceipt,
}

/// The rule of a slot, whose tag is made of the names of the shared cells: a naming there is of these.
pub(crate) struct OfCells;

impl<U: Upstream> SlotRule<KnownNaming<U>> for OfCells {
    ghost use Rattle.upstream_schemas.specs.Known.{IsKnownNaming, names_of};

    ghost holds = { λ tag known. IsKnownNaming (names_of tag) known };
}

/// A slot is tagged with the names of the shared cells.
struct ItsCells;

impl<'r, U: Upstream> Names<SharedCells<'r, U>> for ItsCells {
    ghost use Rattle.upstream_schemas.specs.Known.{tag_of};

    ghost numbers = { tag_of };
}

/// A table of namings whose receipts are known, each in a slot that is written once. A naming is in the first slot from
/// its id's home that was free.
#[derive(Drop)]
pub(crate) struct KnownNamings<U: Upstream> {
    slots: Vec<OnceSlot<KnownNaming<U>, OfCells>>,
}

impl<U: Upstream> KnownNaming<U> {
    /// Returns whether it is of the ids of a naming and a receipt. Then these are of one schema.
    fn is_of(&self, cells: &SharedCells<'_, U>, found: &mut FoundSchema<U>) -> bool
        requires known { IsKnownNaming cells.now self.now }
        requires receipt { IsReceiptOf cells.now.registry found.old.receipt }
        requires named { IsNamed cells.now found.old.named }
        ensures same { found.new ≡ found.old }
        ensures ids { result ≡ true ↔ ((self.now.named.id ≡ found.old.named.id)
            × (self.now.receipt.id ≡ found.old.receipt.id)) }
        ensures one { result ≡ true → IsOfOne found.old.named found.old.receipt }
    {
        if self.named.id() != found.named.id() || self.receipt.id() != found.receipt.id() {
            return false;
        }
        cells.table.agree_with_kept(&mut found.named, &self.named); // law
        cells
            .registry
            .agree_with_kept(&mut found.receipt, &self.receipt); // law
        true
    }
}

/// Returns the index of the first slot for an id. Ids that follow one another, or are multiples of one number, have
/// homes that lie apart.
fn home_of(id: u32) -> usize
    ensures { result < KNOWN }
{
    (id.wrapping_mul(0x9e37_79b1) >> 17) as usize % KNOWN
}

impl<U: Upstream> KnownNamings<U> {
    /// Returns a table with nothing in it, for namings of these cells. The error is want of memory.
    pub(crate) fn new(
        alloc: Global,
        cells: &SharedCells<'_, U>,
    ) -> Result<KnownNamings<U>, AllocError>
        ensures { IfOk result (IsTableOf cells.now) }
    {
        let tag = Tag::of::<SharedCells<'_, U>, ItsCells>(cells);
        let mut slots = Vec::new(alloc);
        for _ in 0..KNOWN {
            slots.push(OnceSlot::new(&tag))?;
        }
        Ok(KnownNamings { slots })
    }

    /// Returns whether the table has a naming with a receipt's id. Then these are of one schema.
    pub(crate) fn knows(&self, cells: &SharedCells<'_, U>, found: &mut FoundSchema<U>) -> bool
        requires table { IsTableOf cells.now self.now }
        requires receipt { IsReceiptOf cells.now.registry found.old.receipt }
        requires named { IsNamed cells.now found.old.named }
        ensures same { found.new ≡ found.old }
        ensures one { result ≡ true → IsOfOne found.old.named found.old.receipt }
    {
        let home = home_of(found.named.id());
        for step in 0..KNOWN {
            let Some(known) = self.slots[(home + step) % KNOWN].get() else {
                return false;
            };
            if known.is_of(cells, found) {
                return true;
            }
        }
        false
    }

    /// Keeps a naming and a receipt of one schema, where the table has room and does not have them.
    pub(crate) fn keep(&self, cells: &SharedCells<'_, U>, found: &mut FoundSchema<U>)
        requires table { IsTableOf cells.now self.now }
        requires receipt { IsReceiptOf cells.now.registry found.old.receipt }
        requires named { IsNamed cells.now found.old.named }
        requires one { IsOfOne found.old.named found.old.receipt }
        ensures { found.new ≡ found.old }
    {
        let home = home_of(found.named.id());
        let mut naming = KnownNaming {
            named: found.named.keep(),
            receipt: found.receipt.keep(),
        };
        for step in 0..KNOWN {
            let slot = &self.slots[(home + step) % KNOWN];
            naming = match slot.set(naming) {
                Ok(_kept) => return,
                Err(back) => back,
            };
            if let Some(known) = slot.get()
                && known.is_of(cells, found)
            {
                return;
            }
        }
    }
}
