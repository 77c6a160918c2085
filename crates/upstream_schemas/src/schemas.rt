//! The schemas that the ids of an upstream registry name.

ghost use Rattle.std.specs.Prelude.{◌≡◌, ◌≢◌, Err, Ok, Some, IfErr, IfOk, IfSome, string_bytes, ℕ};
ghost use Rattle.spec_schema.specs.declared.schema_error.SchemaError.{SchemaError};
ghost use Rattle.spec_registry.specs.Accepting.{declaration_of};
ghost use Rattle.spec_registry.specs.Receipt.{IsReceiptOf};
ghost use Rattle.upstream_schemas.specs.Asking.{IsWhyUnheld};
ghost use Rattle.spec_service.specs.UpstreamNaming.{IsNamed, IsNamingOf, IsSchemaFor, IsTextOf};

use crate::cells::SharedCells;
use crate::found::FoundSchema;
use crate::hearing::hear;
use crate::held::{Held, Named};
use crate::known::KnownNamings;
use crate::limits::MOST_IDS;
use crate::upstream::Upstream;
use avro_schema::{Schema, SchemaError};
use gateway_requests::Fault;
use id_cells::{HeldValue, IdTable};
use schema_registry::{Command, KeepFault, Level, Receipt, Refusal, SharedRegistry};
use std::alloc::{AllocError, Global};
use std::marker::{Model, PhantomData};
use std::sync::Wait;
use std::sync::atomic::{AtomicU64, Ordering};
use upstream_answers::Place;

/// The subject of this process's registry that the schemas are registered under.
const SUBJECT: &str = "upstream";

/// A schema, and the id that it has in this process's own registry.
#[derive(Drop)]
struct LocalSchema {
    local: u32,
    schema: Schema,
}

/// The schemas that the ids of an upstream registry name. Each is registered in this process too, under an id of its
/// own registry, by which programs and sessions go. Callers see it as the names of the cells of the two.
#[derive(Drop)]
pub struct UpstreamSchemas<'r, U: Upstream> {
    alloc: Global,
    place: Place,
    cells: SharedCells<'r, U>,
    known: KnownNamings<U>,
    /// The number of ids whose schemas are held.
    count: AtomicU64,
}

impl<'r, U: Upstream> Model for UpstreamSchemas<'r, U> {
    ghost use Rattle.upstream_schemas.specs.Known.{IsTableOf};
    ghost use Rattle.spec_service.specs.UpstreamNaming.{Names};

    ghost Value = { Names };

    ghost view = { λ s. s.cells };

    ghost invariant = { λ s. IsTableOf s.cells s.known };
}

/// Returns the fault that a refusal of this process's registry comes to. That a text is no schema was found before.
fn fault_of<U: Upstream>(refusal: Refusal) -> Fault
    ensures { (id : ℕ) → IsWhyUnheld U.heard U.kept id result }
{
    match refusal {
        Refusal::Full => Fault::Full,
        Refusal::NoMemory => Fault::NoMemory,
        Refusal::NotStored => Fault::NotStored,
        _ => Fault::Clash,
    }
}

/// Returns the schema that a text declares, or the text's first fault.
fn declared(alloc: Global, text: &str) -> Result<Schema, SchemaError>
    ensures schema { IfOk result (λ schema. declaration_of text.now ≡ Ok schema) }
    ensures fault { IfErr result (λ e. e ≢ SchemaError.NoMemory → declaration_of text.now ≡ Err e) }
{
    Schema::parse(alloc, text)
}

/// Returns the fault that a schema comes to which is not kept.
fn unkept<U: Upstream>(fault: KeepFault) -> Fault
    ensures { (id : ℕ) → IsWhyUnheld U.heard U.kept id result }
{
    match fault {
        KeepFault::NoMemory => Fault::NoMemory,
        KeepFault::NotStored => Fault::NotStored,
    }
}

/// Returns the schema that a text declares, which is one of an id. `id` is read by the clauses alone.
fn schema_for<U: Upstream>(alloc: Global, id: u32, text: &String) -> Result<Schema, Fault>
    requires { IsTextOf U.heard U.kept id (string_bytes text.now) }
    ensures schema { IfOk result (λ schema. declaration_of (string_bytes text.now) ≡ Ok schema) }
    ensures why { IfErr result (IsWhyUnheld U.heard U.kept id) }
{
    match declared(alloc, text.as_str()) {
        Ok(schema) => Ok(schema),
        Err(SchemaError::NoMemory) => Err(Fault::NoMemory),
        Err(error) => Err(Fault::BadSchema(error)),
    }
}

/// Returns what is held of a schema of an id, which has this id in this process.
fn held_of<U: Upstream>(id: u32, local: u32, schema: Schema) -> Held<U>
    requires { IsSchemaFor U.heard U.kept id schema }
    ensures { (result.id ≡ id) × (result.schema ≡ schema) }
{
    Held {
        id,
        local,
        schema,
        of: PhantomData,
    }
}

impl<'r, U: Upstream> UpstreamSchemas<'r, U> {
    /// Returns no schemas yet, of the registry at a place, over this process's registry, which from then on compares no
    /// schema with older ones. The error is want of memory.
    pub fn new<R: Wait>(
        rt: &R,
        alloc: Global,
        registry: &'r SharedRegistry,
        place: Place,
    ) -> Result<UpstreamSchemas<'r, U>, AllocError>
        ensures { IfOk result (λ schemas. schemas.registry ≡ registry.now) }
    {
        let table = IdTable::new(alloc)?;
        let cells = SharedCells { registry, table };
        let known = KnownNamings::new(alloc, &cells)?;
        let never = Command::SetLevel {
            subject: None,
            level: Level::None,
        };
        if registry.apply(rt, never).is_err() {
            return Err(AllocError);
        }
        Ok(UpstreamSchemas {
            alloc,
            place,
            cells,
            known,
            count: AtomicU64::new(0),
        })
    }

    /// Returns where memory is taken from.
    pub fn alloc(&self) -> Global {
        self.alloc
    }

    /// Returns this process's registry, which has the schemas under ids of its own.
    pub fn registry(&self) -> &'r SharedRegistry
        ensures { result.now ≡ self.now.registry }
    {
        self.cells.registry
    }

    /// Returns the receipt of what is held for an id, with the note of the naming. None where the registry shows no
    /// schema of this text. The texts are compared where the receipt is not known to be that of the naming; from then
    /// on it is.
    fn receipt_of(&self, id: u32, held: &Held<U>, named: Named<U>) -> Option<FoundSchema<U>>
        requires named { IsNamed self.now named × (named.id ≡ id) × (named.last.1 ≡ Some held.now) }
        ensures { IfSome result (λ found. IsReceiptOf self.now.registry found.receipt
            × IsNamingOf U.heard U.kept self.now id found.receipt found.named) }
    {
        let (schema, receipt) = self.cells.registry.find(held.local)?;
        let mut found = FoundSchema { receipt, named };
        if held.id != id {
            return None;
        }
        if self.known.knows(&self.cells, &mut found) {
            return Some(found);
        }
        if schema.text() != held.schema.text() {
            return None;
        }
        schema.same_text_has_same_nodes(&held.schema); // law
        self.known.keep(&self.cells, &mut found);
        Some(found)
    }

    /// Returns the schema that an id names, by its receipt and the note of the naming. None where this thread sees none
    /// held for it.
    pub fn find(&self, id: u32) -> Option<FoundSchema<U>>
        ensures { IfSome result (λ found. IsReceiptOf self.now.registry found.receipt
            × IsNamingOf U.heard U.kept self.now id found.receipt found.named) }
    {
        let (held, named) = self.cells.table.find(id)?;
        self.receipt_of(id, held, named)
    }

    /// Registers the schema of a text of an id in this process. Returns the schema, and the id that it has here.
    ///
    /// `BadSchema` where the text is no schema, `Full` where as many ids or schemas are held as may be, `NotStored`
    /// where the registry is kept in a file that could not be written, `NoMemory`.
    fn register<R: Wait>(&self, rt: &R, id: u32, text: &String) -> Result<LocalSchema, Fault>
        requires { IsTextOf U.heard U.kept id (string_bytes text.now) }
        ensures schema { IfOk result (λ own. declaration_of (string_bytes text.now) ≡ Ok own.schema) }
        ensures why { IfErr result (IsWhyUnheld U.heard U.kept id) }
    {
        let schema = schema_for::<U>(self.alloc, id, text)?;
        if self.count.load(Ordering::SeqCst) >= MOST_IDS {
            return Err(Fault::Full);
        }
        let subject = String::from_str(self.alloc, SUBJECT)?;
        let copy = String::from_str(self.alloc, text.as_str())?;
        match self.cells.registry.register(rt, subject, copy) {
            Ok((local, _receipt)) => Ok(LocalSchema { local, schema }),
            Err(refusal) => Err(fault_of::<U>(refusal)),
        }
    }

    /// Holds a schema for an id, for good, where none is held for it. Returns what is then held.
    fn put(&self, id: u32, own: LocalSchema) -> Result<FoundSchema<U>, Fault>
        requires { IsSchemaFor U.heard U.kept id own.schema }
        ensures found { IfOk result (λ found. IsReceiptOf self.now.registry found.receipt
            × IsNamingOf U.heard U.kept self.now id found.receipt found.named) }
        ensures why { IfErr result (IsWhyUnheld U.heard U.kept id) }
    {
        let held = Box::new(self.alloc, held_of(id, own.local, own.schema))?;
        let (held, named, which) = self.cells.table.hold(id, held)?;
        if which == HeldValue::Given {
            self.count.fetch_add(1, Ordering::SeqCst);
        }
        match self.receipt_of(id, held, named) {
            Some(found) => Ok(found),
            None => Err(Fault::Clash),
        }
    }

    /// Holds the schema of a text that is kept for an id, for good, where none is held for it. Returns what is then
    /// held.
    ///
    /// `BadSchema` where the text is no schema, `Full` where as many ids or schemas are held as may be, `NotStored`
    /// where the registry is kept in a file that could not be written, `NoMemory`, `Clash`.
    pub fn hold<R: Wait>(&self, rt: &R, id: u32, text: &String) -> Result<FoundSchema<U>, Fault>
        requires { U.kept id (string_bytes text.now) }
        ensures found { IfOk result (λ found. IsReceiptOf self.now.registry found.receipt
            × IsNamingOf U.heard U.kept self.now id found.receipt found.named) }
        ensures why { IfErr result (IsWhyUnheld U.heard U.kept id) }
    {
        let own = self.register(rt, id, text)?;
        self.put(id, own)
    }

    /// Asks the upstream registry for the schema of an id that this thread sees none held for, keeps what it answers,
    /// and holds it. Returns what is then held. The error says why nothing is.
    pub fn ask<R: Wait>(&self, rt: &R, upstream: &U, id: u32) -> Result<FoundSchema<U>, Fault>
        ensures found { IfOk result (λ found. IsReceiptOf self.now.registry found.receipt
            × IsNamingOf U.heard U.kept self.now id found.receipt found.named) }
        ensures why { IfErr result (IsWhyUnheld U.heard U.kept id) }
    {
        if let Some(found) = self.find(id) {
            return Ok(found);
        }
        let text = hear(self.alloc, upstream, &self.place, id)?;
        let own = self.register(rt, id, &text)?;
        match upstream.keep(id, text.as_str()) {
            Ok(()) => self.put(id, own),
            Err(fault) => Err(unkept::<U>(fault)),
        }
    }

    /// The law that an id names one schema, whoever saw the namings.
    pub fn an_id_names_one_schema(&self, one: &mut Named<U>, two: &mut Named<U>)
        requires one { IsNamed self.now one.old }
        requires two { IsNamed self.now two.old }
        requires id { one.old.id ≡ two.old.id }
        ensures same { (one.new ≡ one.old) × (two.new ≡ two.old) }
        ensures agree { one.old.last.1 ≡ two.old.last.1 }
    {
        self.cells.table.agree(one, two);
    }
}
