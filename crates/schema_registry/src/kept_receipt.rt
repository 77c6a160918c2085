//! What a receipt says, kept where threads share it.

ghost use Rattle.std.specs.Prelude.{◌≡◌};
ghost use Rattle.spec_registry.specs.Receipt.{IsReceiptOf};

use crate::shared::{Receipt, SharedRegistry};
use avro_schema::Schema;
use id_cells::KeptNote;
use std::marker::Model;

/// What a receipt says, where threads can share it. Callers see it as a `Shown`.
#[derive(Drop)]
pub struct KeptReceipt {
    id: u32,
    note: KeptNote<Schema>,
}

impl Model for KeptReceipt {
    ghost use Rattle.std.specs.Coded.{codes};
    ghost use Rattle.avro_types.specs.DatumCode.{datum_coded};
    ghost use Rattle.spec_registry.specs.Receipt.{Shown};

    ghost Value = { Shown };

    ghost coded = { Prim.hlevel (codes, datum_coded) };

    ghost view = { λ r. record { id = r.id; cell = r.note.cell; schema = r.note.known } };
}

impl Receipt {
    /// Keeps what the receipt says.
    pub fn keep(&mut self) -> KeptReceipt
        ensures same { self.new ≡ self.old }
        ensures kept { result ≡ self.old }
    {
        KeptReceipt {
            id: self.id,
            note: KeptNote::of(&mut self.note),
        }
    }
}

impl KeptReceipt {
    /// Returns the id of its schema.
    pub fn id(&self) -> u32
        ensures { result ≡ self.now.id }
    {
        self.id
    }
}

impl SharedRegistry {
    /// The law that a receipt and one that was kept, of one id, represent one schema.
    pub fn agree_with_kept(&self, receipt: &mut Receipt, kept: &KeptReceipt)
        requires receipt { IsReceiptOf self.now receipt.old }
        requires kept { IsReceiptOf self.now kept.now }
        requires id { kept.now.id ≡ receipt.old.id }
        ensures same { receipt.new ≡ receipt.old }
        ensures agree { kept.now.schema ≡ receipt.old.schema }
    {
        KeptNote::compare(&mut receipt.note, kept.note.again());
    }
}
