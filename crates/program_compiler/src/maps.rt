//! What the symbols of enums become: the maps of a program.

ghost use Rattle.std.specs.Prelude.{◌≡◌, ◌≤◌, ◌++◌, ◌∷◌, [], length, map, slice_get, string_bytes, IfOk, OnOk};
ghost use Rattle.spec_machine.specs.Numbering.{entry_of, maps_of, named_in};
ghost use Rattle.program_ir.specs.Statements.{statement_of, statements_in, symbols_of, targets_of};
ghost use Rattle.program_compiler.specs.Tables.{AreShared};

use crate::schema_pair::SchemaPair;
use avro_types::{Kind, Nodes};
use isa::{Entry, Lists, MOST_TABLES};
use program_ir::{Misses, Statement, entries};
use std::alloc::{AllocError, Global};
use std::collections::BTreeMap;

/// Returns the symbols of an enum; none of any other node.
pub(crate) fn symbols(nodes: &Nodes, node: usize) -> &[String]
    ensures { map string_bytes result.now ≡ symbols_of (slice_get nodes.now node) }
{
    if node >= nodes.len() {
        return &[];
    }
    match nodes.kind(node) {
        Kind::Enum { symbols, .. } => symbols.as_slice(),
        _ => &[],
    }
}

/// The maps of a program as they are gathered, and under each pair of enums the number of its map.
#[derive(Drop)]
struct MapRow {
    maps: Lists<Entry>,
    numbers: BTreeMap<(usize, usize), usize>,
}

impl MapRow {
    /// Appends the map of a pair of enums, by their nodes. A pair that came before shares its entries.
    fn push_enums(
        &mut self,
        schemas: &SchemaPair<'_>,
        misses: &Misses,
        writer: usize,
        reader: usize,
    ) -> Result<(), AllocError>
        requires few { length misses.now ≤ MOST_TABLES }
        requires shared { AreShared schemas.now.writer.now schemas.now.reader.now misses.now self.old.numbers
            self.old.maps }
        ensures pushed { OnOk result (self.new.maps ≡ self.old.maps
            ++ map (entry_of misses.now)
            (targets_of schemas.now.writer.now schemas.now.reader.now writer reader) ∷ []) }
        ensures shared { OnOk result (AreShared schemas.now.writer.now schemas.now.reader.now misses.now
            self.new.numbers self.new.maps) }
    {
        if let Some(number) = self.numbers.get(&(writer, reader)).copied() {
            return self.maps.push_again(number);
        }
        let number = self.maps.len();
        let symbols = symbols(schemas.writer, writer);
        let entries = entries(
            schemas.alloc,
            schemas.reader,
            misses,
            writer,
            reader,
            symbols,
        )?;
        self.maps.push(entries.as_slice())?;
        self.numbers.insert((writer, reader), number)?;
        Ok(())
    }

    /// Appends the map that a statement refers to, if it refers to one.
    fn push_named(
        &mut self,
        schemas: &SchemaPair<'_>,
        misses: &Misses,
        statement: &Statement,
    ) -> Result<(), AllocError>
        requires few { length misses.now ≤ MOST_TABLES }
        requires shared { AreShared schemas.now.writer.now schemas.now.reader.now misses.now self.old.numbers
            self.old.maps }
        ensures pushed { OnOk result (self.new.maps ≡ self.old.maps ++ map (map (entry_of misses.now))
            (maps_of (statement_of schemas.now.writer.now schemas.now.reader.now statement.now))) }
        ensures shared { OnOk result (AreShared schemas.now.writer.now schemas.now.reader.now misses.now
            self.new.numbers self.new.maps) }
    {
        match statement {
            Statement::Enum { writer, reader } => {
                self.push_enums(schemas, misses, *writer, *reader)
            }
            _ => Ok(()),
        }
    }
}

/// Returns the maps that statements refer to, in order.
pub(crate) fn gather_maps(
    alloc: Global,
    writer: &Nodes,
    reader: &Nodes,
    misses: &Misses,
    statements: &[Statement],
) -> Result<Lists<Entry>, AllocError>
    requires { length misses.now ≤ MOST_TABLES }
    ensures { IfOk result
        (λ maps. maps ≡ map (map (entry_of misses.now))
        (named_in maps_of (statements_in writer.now reader.now statements.now))) }
{
    let schemas = SchemaPair {
        alloc,
        writer,
        reader,
    };
    let mut row = MapRow {
        maps: Lists::new(alloc),
        numbers: BTreeMap::new(alloc),
    };
    for statement in statements {
        row.push_named(&schemas, misses, statement)?;
    }
    Ok(row.maps)
}
