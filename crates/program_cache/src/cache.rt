//! The programs of pairs of a registry's schemas: the number of a pair of ids, and the pairs that are known by their
//! receipts.

ghost use Rattle.std.specs.Prelude.{◌<◌, ◌^◌, ◌↔◌, ◌≡◌, IfErr, IfOk, IfSome, true};
ghost use Rattle.program_cache.specs.Numbers.{HaveTheirOwnNumbers, IsId, number_of_place, pair_number};
ghost use Rattle.program_cache.specs.Pairs.{IsPairAnswer};
ghost use Rattle.spec_registry.specs.Receipt.{IsReceiptOf};
ghost use Rattle.session_core.specs.Publishing.{IsPublished};
ghost use Rattle.program_cache.specs.declared.cache.TheConstants.{KNOWN};
ghost use Rattle.program_cache.specs.declared.compiled.TheConstants.{CELLS};

use crate::compiled::{CELLS, Cells, Compiled, NumberedCell};
use crate::place::Place;
use crate::refusal::PairRefusal;
use avro_schema::Schema;
use boxcar::slot::{OnceSlot, SlotRule};
use boxcar::tag::{Names, Tag};
use machine::{PairProgram, PlannedProgram};
use schema_registry::{KeptReceipt, MOST_SCHEMAS, Receipt, SharedRegistry};
use session_core::{Programs, PublishError};
use std::alloc::{AllocError, Global};
use std::marker::Model;

/// The cells for the ids of some readers, of one writer's id.
type Block = Cells<Compiled>;

/// The blocks of one writer's id.
type Row = Cells<Block>;

/// The rows of some writers' ids.
type Rows = Cells<Row>;

/// What pairs of a registry's schemas were compiled to, for good: in a table of those that are known by receipts, or
/// where the slots of a pair there have others, in a cell by the ids of its writer and its reader. Cells are made when
/// they are first needed. Callers see a cache as its registry.
#[derive(Drop)]
pub struct ProgramCache<'r> {
    alloc: Global,
    registry: &'r SharedRegistry,
    known: KnownPairs,
    rows: Cells<Rows>,
}

impl<'r> Model for ProgramCache<'r> {
    ghost use Rattle.std.specs.Prelude.{◌≡◌, ℕ, List};
    ghost use Rattle.program_cache.specs.Known.{IsTableOf};

    ghost Value = { List ℕ };

    ghost view = { λ c. c.registry.now };

    ghost invariant = { λ c. IsTableOf c.registry.now c.known × (c.rows.number ≡ 0) };
}

impl<'r> ProgramCache<'r> {
    /// Returns an empty cache over a registry.
    pub fn new(alloc: Global, registry: &'r SharedRegistry) -> Result<ProgramCache<'r>, AllocError>
        ensures { IfOk result (λ cache. cache ≡ registry.now) }
    {
        let known = KnownPairs::new(alloc, registry)?;
        let rows = Cells::new(alloc, 0)?;
        Ok(ProgramCache {
            alloc,
            registry,
            known,
            rows,
        })
    }

    /// Returns the registry that it uses.
    pub fn registry(&self) -> &'r SharedRegistry
        ensures { result.now ≡ self.now }
    {
        self.registry
    }

    /// Returns the place of the cell of two receipts' ids.
    fn place_of(&self, writer: &Receipt, reader: &Receipt) -> Place
        requires writer { IsReceiptOf self.now writer.now }
        requires reader { IsReceiptOf self.now reader.now }
        ensures { number_of_place result ≡ pair_number writer.now.id reader.now.id }
    {
        self.registry.receipt_has_an_id(writer); // law
        self.registry.receipt_has_an_id(reader); // law
        Place::of(writer.id(), reader.id())
    }

    /// Returns the cell at a place. Rows on the way to it that are not there are made; `Err` where they cannot be.
    fn cell(&self, place: Place) -> Result<NumberedCell<'_, Compiled>, AllocError>
        ensures { IfOk result (λ cell. cell.number ≡ number_of_place place) }
    {
        let rows = Rows::in_cell(self.alloc, self.rows.at(place.first))?;
        let row = Row::in_cell(self.alloc, rows.at(place.second))?;
        let block = Block::in_cell(self.alloc, row.at(place.third))?;
        Ok(block.at(place.fourth))
    }

    /// Returns the cell at a place; `None` where a row on the way to it is not there.
    fn shown_cell(&self, place: Place) -> Option<NumberedCell<'_, Compiled>>
        ensures { IfSome result (λ cell. cell.number ≡ number_of_place place) }
    {
        let rows = Rows::shown(self.rows.at(place.first))?;
        let row = Row::shown(rows.at(place.second))?;
        let block = Block::shown(row.at(place.third))?;
        Some(block.at(place.fourth))
    }

    /// Returns the program of a pair, by what its cell has. Where it had none, it takes what was compiled first.
    fn keep_in_cell(
        &self,
        place: Place,
        compiled: Box<Compiled>,
        writer: &Schema,
        reader: &Schema,
    ) -> Result<&PairProgram, PairRefusal<'_>>
        ensures { IsPairAnswer writer.now reader.now result }
    {
        let Ok(found) = self.cell(place) else {
            return Err(PairRefusal::NoMemory);
        };
        found
            .cell
            .get_or_init(move || compiled)
            .program_of(writer, reader)
    }

    /// Compiles the pair of two receipts' schemas, keeps the result, and returns the program.
    fn compile(
        &self,
        writer: &mut Receipt,
        reader: &mut Receipt,
    ) -> Result<&PairProgram, PairRefusal<'_>>
        requires writer { IsReceiptOf self.now writer.old }
        requires reader { IsReceiptOf self.now reader.old }
        ensures same { (writer.new ≡ writer.old) × (reader.new ≡ reader.old) }
        ensures pair { IfSome writer.old.schema (λ w. IfSome reader.old.schema (λ r. IsPairAnswer w r result)) }
    {
        let place = self.place_of(writer, reader);
        let from = self.registry.schema(writer);
        let to = self.registry.schema(reader);
        let Ok(compiled) = Compiled::new(self.alloc, from, to) else {
            return Err(PairRefusal::NoMemory);
        };
        match self.known.keep(self.registry, writer, reader, compiled) {
            Ok(kept) => kept.program(),
            Err(compiled) => self.keep_in_cell(place, compiled, from, to),
        }
    }

    /// Returns the schemas of two receipts with their program, which is compiled where it is asked for first.
    ///
    /// `ProgramTooLarge` where the pair has no program; `Clash` where its cell has what another pair was compiled to,
    /// which is returned; `NoMemory` where memory ran out.
    pub fn pair(
        &self,
        writer: &mut Receipt,
        reader: &mut Receipt,
    ) -> Result<&PairProgram, PairRefusal<'_>>
        requires writer { IsReceiptOf self.now writer.old }
        requires reader { IsReceiptOf self.now reader.old }
        ensures same { (writer.new ≡ writer.old) × (reader.new ≡ reader.old) }
        ensures pair { IfSome writer.old.schema (λ w. IfSome reader.old.schema (λ r. IsPairAnswer w r result)) }
    {
        if let Some(compiled) = self.known.find(self.registry, writer, reader) {
            return compiled.program();
        }
        let place = self.place_of(writer, reader);
        if let Some(found) = self.shown_cell(place) {
            if let Some(compiled) = found.cell.get() {
                return compiled.program_of(
                    self.registry.schema(writer),
                    self.registry.schema(reader),
                );
            }
        }
        self.compile(writer, reader)
    }

    /// Returns the program of the schemas of two receipts, as `pair` does. `Clash` comes without the other pair.
    pub fn program(
        &self,
        writer: &mut Receipt,
        reader: &mut Receipt,
    ) -> Result<&PlannedProgram, PublishError>
        requires writer { IsReceiptOf self.now writer.old }
        requires reader { IsReceiptOf self.now reader.old }
        ensures same { (writer.new ≡ writer.old) × (reader.new ≡ reader.old) }
        ensures program { IfSome writer.old.schema (λ w. IfSome reader.old.schema (λ r.
            IsPublished w.nodes r.nodes result)) }
    {
        match self.pair(writer, reader) {
            Ok(pair) => Ok(pair.program()),
            Err(refusal) => Err(refusal.publish_error()),
        }
    }

    /// Returns a receipt of a schema of the same compact text; `None` where this thread sees none in the registry.
    fn receipt_of(&self, schema: &Schema) -> Option<Receipt>
        ensures { IfSome result (λ r. IsReceiptOf self.now r
            × IfSome r.schema (λ s. s.nodes ≡ schema.now.nodes)) }
    {
        for id in 1..=MOST_SCHEMAS as u32 {
            let Some((found, receipt)) = self.registry.find(id) else {
                continue;
            };
            if found.text() == schema.text() {
                found.same_text_has_same_nodes(schema); // law
                return Some(receipt);
            }
        }
        None
    }
}

impl<'r> Programs for ProgramCache<'r> {
    /// Returns the program of two schemas, as `program` does for two receipts. `Clash` also where the registry shows
    /// no schema of one of the two compact texts.
    fn publish(&self, writer: &Schema, reader: &Schema) -> Result<&PlannedProgram, PublishError>
        ensures { IsPublished writer.now.nodes reader.now.nodes result }
    {
        let Some(mut writer) = self.receipt_of(writer) else {
            return Err(PublishError::Clash);
        };
        let Some(mut reader) = self.receipt_of(reader) else {
            return Err(PublishError::Clash);
        };
        self.program(&mut writer, &mut reader)
    }
}

/// How many slots the table has.
const KNOWN: usize = 16_384;

/// How many slots of the table a pair has.
const TRIED: usize = 8;

/// A pair of schemas, by receipts of both that were kept, and what it was compiled to.
#[derive(Drop)]
pub(crate) struct KnownPair {
    writer: KeptReceipt,
    reader: KeptReceipt,
    compiled: Box<Compiled>,
}

/// The rule of a slot, whose tag is the registry's cells: a pair there has receipts of these.
pub(crate) struct OfRegistry;

impl SlotRule<KnownPair> for OfRegistry {
    ghost use Rattle.program_cache.specs.Known.{IsKnownPair};

    ghost holds = { IsKnownPair };
}

/// A slot is tagged with the names of the registry's cells.
struct ItsCells;

impl Names<SharedRegistry> for ItsCells {
    ghost numbers = { λ registry. registry };
}

/// A table of pairs, each in a slot that is written once. A pair has few slots, by its ids.
#[derive(Drop)]
pub(crate) struct KnownPairs {
    slots: Vec<OnceSlot<KnownPair, OfRegistry>>,
}

impl KnownPair {
    ghost use Rattle.program_cache.specs.Known.{IsCompiledOf, IsKnownPair};

    /// Returns whether it is the pair of two receipts' schemas: exactly where it has their ids.
    fn is_of(&self, registry: &SharedRegistry, writer: &mut Receipt, reader: &mut Receipt) -> bool
        requires pair { IsKnownPair registry.now self.now }
        requires writer { IsReceiptOf registry.now writer.old }
        requires reader { IsReceiptOf registry.now reader.old }
        ensures same { (writer.new ≡ writer.old) × (reader.new ≡ reader.old) }
        ensures ids { result ≡ true ↔ ((self.now.writer.id ≡ writer.old.id) × (self.now.reader.id ≡ reader.old.id)) }
        ensures compiled { result ≡ true → IsCompiledOf writer.old reader.old self.now.compiled.value }
    {
        if self.writer.id() != writer.id() || self.reader.id() != reader.id() {
            return false;
        }
        registry.agree_with_kept(writer, &self.writer); // law
        registry.agree_with_kept(reader, &self.reader); // law
        true
    }
}

/// Returns the index of the first slot of a pair.
fn home_of(writer: &Receipt, reader: &Receipt) -> usize
    ensures { result < KNOWN }
{
    (writer.id() as usize * 251 + reader.id() as usize) % KNOWN
}

impl KnownPairs {
    ghost use Rattle.program_cache.specs.Known.{IsCompiledOf, IsKnownPair, IsTableOf};

    /// Returns a table with nothing in it, for receipts of a registry.
    pub(crate) fn new(alloc: Global, registry: &SharedRegistry) -> Result<KnownPairs, AllocError>
        ensures { IfOk result (IsTableOf registry.now) }
    {
        let tag = Tag::of::<SharedRegistry, ItsCells>(registry);
        let mut slots = Vec::new(alloc);
        for _ in 0..KNOWN {
            slots.push(OnceSlot::new(&tag))?;
        }
        Ok(KnownPairs { slots })
    }

    /// Returns what the pair of two receipts' schemas was compiled to, where the table has it.
    pub(crate) fn find(
        &self,
        registry: &SharedRegistry,
        writer: &mut Receipt,
        reader: &mut Receipt,
    ) -> Option<&Compiled>
        requires table { IsTableOf registry.now self.now }
        requires writer { IsReceiptOf registry.now writer.old }
        requires reader { IsReceiptOf registry.now reader.old }
        ensures same { (writer.new ≡ writer.old) × (reader.new ≡ reader.old) }
        ensures found { IfSome result (λ compiled. IsCompiledOf writer.old reader.old compiled.now) }
    {
        let home = home_of(writer, reader);
        for step in 0..TRIED {
            let known = self.slots[(home + step) % KNOWN].get()?;
            if known.is_of(registry, writer, reader) {
                return Some(&known.compiled);
            }
        }
        None
    }

    /// Keeps what the pair of two receipts' schemas was compiled to, or finds that it was kept meanwhile. Returns
    /// what is kept; the error hands it back where the pair's slots have others.
    pub(crate) fn keep(
        &self,
        registry: &SharedRegistry,
        writer: &mut Receipt,
        reader: &mut Receipt,
        compiled: Box<Compiled>,
    ) -> Result<&Compiled, Box<Compiled>>
        requires table { IsTableOf registry.now self.now }
        requires writer { IsReceiptOf registry.now writer.old }
        requires reader { IsReceiptOf registry.now reader.old }
        requires compiled { IsCompiledOf writer.old reader.old compiled.value }
        ensures same { (writer.new ≡ writer.old) × (reader.new ≡ reader.old) }
        ensures kept { IfOk result (λ kept. IsCompiledOf writer.old reader.old kept.now) }
        ensures back { IfErr result (λ back. back.value ≡ compiled.value) }
    {
        let home = home_of(writer, reader);
        let mut pair = KnownPair {
            writer: writer.keep(),
            reader: reader.keep(),
            compiled,
        };
        for step in 0..TRIED {
            let slot = &self.slots[(home + step) % KNOWN];
            pair = match slot.set(pair) {
                Ok(kept) => return Ok(&kept.compiled),
                Err(back) => back,
            };
            if let Some(known) = slot.get() {
                if known.is_of(registry, writer, reader) {
                    return Ok(&known.compiled);
                }
            }
        }
        let KnownPair {
            writer: _writer,
            reader: _reader,
            compiled,
        } = pair;
        Err(compiled)
    }
}

/// Returns the number of a pair of ids, from 0: all pairs of the writer with id 1 come first.
pub(crate) fn pair_number(writer: u32, reader: u32) -> usize
    requires writer { IsId writer }
    requires reader { IsId reader }
    ensures number { result ≡ pair_number writer reader }
    ensures within { result < CELLS ^ 4 }
{
    (writer as usize - 1) * MOST_SCHEMAS + reader as usize - 1
}

/// The law that no two pairs of ids have one number.
pub fn pairs_have_their_own_numbers()
    ensures { HaveTheirOwnNumbers }
{}
