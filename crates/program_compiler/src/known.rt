//! What is kept of nodes that have met, so that each pair is looked at once.

ghost use Rattle.std.specs.Prelude.{◌≡◌, ◌<◌, List, Some, length, slice_get, IfOk};
ghost use Rattle.spec_avro.specs.Node.{Node, UnionNode};
ghost use Rattle.spec_avro.specs.WellFormed.{full_name_of};
ghost use Rattle.resolver.specs.Matching.{IsNodeOf};
ghost use Rattle.spec_avro.specs.Matching.{place};
ghost use Rattle.program_compiler.specs.Known.{AreKnown, lacking_node};

use crate::members::{name_of, positions_of};
use crate::named_types::NamedTypes;
use crate::schema_pair::SchemaPair;
use avro_types::{Kind, Name, Nodes};
use resolver::{Destination, field_lists, first_lacking, matches_by_rule, place_of, routes};
use std::alloc::{AllocError, Global};
use std::collections::BTreeMap;

/// What is known of nodes that have met. It is found once: a pair that is met again costs no more than a look-up.
#[derive(Drop)]
pub(crate) struct Known {
    /// Under two records, the node of the first of the reader's fields that has neither a partner nor a default.
    lacking: BTreeMap<(usize, usize), Option<usize>>,
    /// The reader's named types, once a union of many branches has met one of the writer's.
    types: Option<NamedTypes>,
    /// Under a reader's union of many branches, their positions, each under its node.
    positions: BTreeMap<usize, BTreeMap<usize, u32>>,
}

/// Up to this many branches of a union are compared one by one; of a larger union, up to this many candidates are.
const FEW: usize = 16;

impl Known {
    /// Returns an empty record: nothing is known yet.
    pub(crate) fn new(alloc: Global) -> Known
        ensures { (W R : List Node) → AreKnown W R result }
    {
        Known {
            lacking: BTreeMap::new(alloc),
            types: None,
            positions: BTreeMap::new(alloc),
        }
    }

    /// Returns the node of the first of the reader's fields that has neither a partner nor a default; `None` where
    /// each has one of them.
    pub(crate) fn lacking_node(
        &mut self,
        pair: &SchemaPair<'_>,
        writer_node: usize,
        reader_node: usize,
    ) -> Result<Option<usize>, AllocError>
        requires writer { writer_node < length pair.now.writer.now }
        requires reader { reader_node < length pair.now.reader.now }
        requires known { AreKnown pair.now.writer.now pair.now.reader.now self.old }
        ensures node { IfOk result
            (λ node. node ≡ lacking_node pair.now.writer.now pair.now.reader.now (writer_node, reader_node)) }
        ensures known { AreKnown pair.now.writer.now pair.now.reader.now self.new }
    {
        if let Some(node) = self.lacking.get(&(writer_node, reader_node)).copied() {
            return Ok(node);
        }
        let node = pair.find_lacking(writer_node, reader_node)?;
        self.lacking.insert((writer_node, reader_node), node)?;
        Ok(node)
    }

    /// Notes the reader's named types, unless they are noted already.
    fn note_types(&mut self, alloc: Global, r: &Nodes) -> Result<(), AllocError>
        ensures { (W : List Node) → AreKnown W r.now self.old → AreKnown W r.now self.new }
    {
        if self.types.is_none() {
            self.types = Some(NamedTypes::of_nodes(alloc, r)?);
        }
        Ok(())
    }

    /// Notes the positions of the branches of a reader's union, unless they are noted already.
    fn note_positions(
        &mut self,
        alloc: Global,
        r: &Nodes,
        rn: usize,
        members: &[usize],
    ) -> Result<(), AllocError>
        requires { slice_get r.now rn ≡ Some (UnionNode members.now) }
        ensures { (W : List Node) → AreKnown W r.now self.old → AreKnown W r.now self.new }
    {
        if self.positions.contains_key(&rn) {
            return Ok(());
        }
        r.is_well_formed(); // law
        let positions = positions_of(alloc, members)?;
        self.positions.insert(rn, positions)?;
        Ok(())
    }

    /// Returns where a value of a writer's named type goes in a reader's union.
    ///
    /// Only the branches that have its unqualified name can match, so only these are compared. Where more than `FEW`
    /// nodes have it, or the union is not noted, each branch is compared.
    fn place_by_name(
        &self,
        pair: &SchemaPair<'_>,
        wn: usize,
        name: &Name,
        rn: usize,
        members: &[usize],
    ) -> Destination
        requires writer { wn < length pair.now.writer.now }
        requires name { full_name_of (slice_get pair.now.writer.now wn) ≡ Some name.now }
        requires reader { rn < length pair.now.reader.now }
        requires union { slice_get pair.now.reader.now rn ≡ Some (UnionNode members.now) }
        requires known { AreKnown pair.now.writer.now pair.now.reader.now self.now }
        ensures place { result ≡ place pair.now.writer.now pair.now.reader.now wn rn }
        ensures within { IsNodeOf (length pair.now.reader.now) result }
    {
        let (Some(types), Some(positions)) = (&self.types, self.positions.get(&rn)) else {
            return place_of(pair.writer, wn, pair.reader, rn);
        };
        let candidates = types.of_name(name.last());
        if candidates.len() > FEW {
            return place_of(pair.writer, wn, pair.reader, rn);
        }
        pair.writer.is_well_formed(); // law
        pair.reader.is_well_formed(); // law
        matches_by_rule(); // law
        pair.find_member(wn, members, positions, candidates)
    }

    /// Returns where a value of a writer's node goes in a reader's node.
    pub(crate) fn place_of(
        &mut self,
        pair: &SchemaPair<'_>,
        writer_node: usize,
        reader_node: usize,
    ) -> Result<Destination, AllocError>
        requires writer { writer_node < length pair.now.writer.now }
        requires reader { reader_node < length pair.now.reader.now }
        requires known { AreKnown pair.now.writer.now pair.now.reader.now self.old }
        ensures place { IfOk result
            (λ found. found ≡ place pair.now.writer.now pair.now.reader.now writer_node reader_node) }
        ensures within { IfOk result (IsNodeOf (length pair.now.reader.now)) }
        ensures known { AreKnown pair.now.writer.now pair.now.reader.now self.new }
    {
        let Kind::Union(members) = pair.reader.kind(reader_node) else {
            return Ok(place_of(pair.writer, writer_node, pair.reader, reader_node));
        };
        let Some(name) = name_of(pair.writer, writer_node) else {
            return Ok(place_of(pair.writer, writer_node, pair.reader, reader_node));
        };
        if members.len() <= FEW {
            return Ok(place_of(pair.writer, writer_node, pair.reader, reader_node));
        }
        self.note_types(pair.alloc, pair.reader)?;
        self.note_positions(pair.alloc, pair.reader, reader_node, members)?;
        Ok(self.place_by_name(pair, writer_node, name, reader_node, members))
    }
}

impl SchemaPair<'_> {
    /// Returns the node of the first of the reader's fields that has neither a partner nor a default, found by
    /// matching the fields of both records; `None` where each has one of them.
    fn find_lacking(&self, wn: usize, rn: usize) -> Result<Option<usize>, AllocError>
        requires writer { wn < length self.now.writer.now }
        requires reader { rn < length self.now.reader.now }
        ensures { IfOk result (λ node. node ≡ lacking_node self.now.writer.now self.now.reader.now (wn, rn)) }
    {
        let Some((ws, rs)) = field_lists(self.writer, wn, self.reader, rn) else {
            return Ok(None);
        };
        let routes = routes(self.alloc, ws, rs)?;
        match first_lacking(self.alloc, &routes, rs)? {
            Some(field) => Ok(Some(field.node)),
            None => Ok(None),
        }
    }
}
