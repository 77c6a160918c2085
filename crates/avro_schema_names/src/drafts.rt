//! The drafts of a schema so far, and where each full name is defined.

ghost use Rattle.std.specs.Prelude.{◌≡◌, [], ◌∷◌, ◌++◌, length, set, slice_get, Some, None, false, map, IfOk, OnErr, OnOk};
ghost use Rattle.spec_avro.specs.FullNames.{has_dot, inside, namespace_of};
ghost use Rattle.avro_types.specs.Node.{node_of};
ghost use Rattle.spec_avro.specs.Symbols.{is_used, place_of};
ghost use Rattle.spec_schema.specs.Draft.{Whole};
ghost use Rattle.avro_schema_names.specs.Draft.{draft_field_of, draft_of, drafts_of, field_names};
ghost use Rattle.avro_schema_names.specs.Head.{IsUnnamed};
ghost use Rattle.spec_schema.specs.Head.{Named, defined_at, head_of, head_of_node, heads_of};
ghost use Rattle.avro_schema_names.specs.Index.{AreOnce, BeginWithNoDot, IsNamespaceOf, IsNumbered, namespaces_of, text_of_namespace};

use crate::draft::{Draft, DraftField};
use crate::named::{NameParts, add_first_named, add_named, put};
use crate::namespace::Namespace;
use avro_types::{Kind, Name};
use std::alloc::{AllocError, Global};
use std::collections::{BTreeMap, BTreeSet};
use std::marker::Model;

/// The nodes so far, and where each full name is defined. Callers see them as a list of `Draft`s.
#[derive(Drop)]
pub struct Drafts<'v> {
    nodes: Vec<Draft<'v>>,
    /// The number of each namespace that has names; that of the null one is 0.
    numbers: BTreeMap<String, usize>,
    /// For each namespace, the nodes that the last parts of its names define.
    scopes: Vec<BTreeMap<String, usize>>,
}

impl<'v> Model for Drafts<'v> {
    ghost use Rattle.std.specs.Prelude.{List};
    ghost use Rattle.std.specs.Coded.{codes};
    ghost use Rattle.avro_types.specs.DatumCode.{datum_coded};
    ghost use Rattle.spec_schema.specs.Draft.{Draft};
    ghost use Rattle.avro_schema_names.specs.Draft.{drafts_of};
    ghost use Rattle.avro_schema_names.specs.Index.{IsIndexOf};
    ghost use Rattle.avro_schema_names.specs.JsonCode.{json_coded};

    ghost Value = { List Draft };

    ghost coded = { Prim.hlevel (codes, datum_coded, json_coded) };

    ghost view = { λ d. drafts_of d.nodes.items };

    ghost invariant = { λ d. IsIndexOf d.numbers d.scopes.items (drafts_of d.nodes.items) };
}

impl<'v> Drafts<'v> {
    pub fn new(alloc: Global) -> Result<Self, AllocError>
        ensures { IfOk result (λ d. d ≡ []) }
    {
        let mut numbers = BTreeMap::new(alloc);
        numbers.insert(String::from_str(alloc, "")?, 0)?;
        let mut scopes = Vec::new(alloc);
        scopes.push(BTreeMap::new(alloc))?;
        Ok(Drafts {
            nodes: Vec::new(alloc),
            numbers,
            scopes,
        })
    }

    /// Returns the number of nodes.
    pub fn len(&self) -> usize
        ensures { result ≡ length self.now }
    {
        self.nodes.len()
    }

    /// Returns the nodes, in order.
    pub fn as_slice(&self) -> &[Draft<'v>]
        ensures { drafts_of result.now ≡ self.now }
    {
        self.nodes.as_slice()
    }

    /// Returns the nodes, in order, and drops the index of their names.
    pub fn into_nodes(self) -> Vec<Draft<'v>>
        ensures { drafts_of result.items ≡ self.entry }
    {
        self.nodes
    }

    /// The law that each full name is that of one node, and begins with no dot.
    pub fn names_are_apart(&self)
        ensures once { AreOnce (heads_of self.now) }
        ensures begins_none { BeginWithNoDot (heads_of self.now) }
    {
        let _opened = &self.nodes; // read for the proof
    }

    /// Returns the node of the name with a last part in a namespace; `None` where no node has it.
    pub fn defined_in(&self, enclosing: &Namespace, last: &str) -> Option<usize>
        requires known { IsNamespaceOf enclosing.now self.now }
        requires undotted { has_dot last.now ≡ false }
        ensures { result ≡ defined_at (inside (text_of_namespace enclosing.now) last.now) (heads_of self.now) }
    {
        self.scopes[enclosing.number].get(last).copied()
    }

    /// Returns the number of a namespace; `None` where it has no names.
    pub fn number_of(&self, namespace: &str) -> Option<usize>
        ensures { result ≡ place_of namespace.now (namespaces_of (heads_of self.now)) }
    {
        self.numbers.get(namespace).copied()
    }

    /// Returns the node of the name with a namespace and a last part; `None` where no node has it.
    pub fn defined_by(&self, namespace: &str, last: &str) -> Option<usize>
        requires undotted { has_dot last.now ≡ false }
        ensures { result ≡ defined_at (inside namespace.now last.now) (heads_of self.now) }
    {
        match self.number_of(namespace) {
            Some(number) => self.scopes[number].get(last).copied(),
            None => None,
        }
    }

    /// Appends a node of a kind that has no name. An `Err` leaves the drafts as they were.
    pub fn push(&mut self, kind: Kind) -> Result<(), AllocError>
        requires { IsUnnamed (head_of_node (node_of kind)) }
        ensures nodes { OnOk result (self.new ≡ self.old ++ Whole (node_of kind) ∷ []) }
        ensures refused { OnErr result (self.new ≡ self.old) }
    {
        self.nodes.push(Draft::Whole(kind))?;
        Ok(())
    }

    /// Appends the node that defines a full name, which is new, and returns the number of its namespace. The number is
    /// passed where the namespace has one already. An `Err` leaves the drafts as they were.
    pub fn define(
        &mut self,
        alloc: Global,
        name: &Name,
        number: Option<usize>,
        draft: Draft<'v>,
    ) -> Result<usize, AllocError>
        requires new { defined_at name.now (heads_of self.old) ≡ None }
        requires named { head_of (draft_of draft) ≡ Named name.now }
        requires numbered { IsNumbered name.now number self.old }
        ensures nodes { OnOk result (self.new ≡ self.old ++ draft_of draft.entry ∷ []) }
        ensures refused { OnErr result (self.new ≡ self.old) }
        ensures number { IfOk result (λ n. slice_get (namespaces_of (heads_of self.new))
            n ≡ Some (namespace_of name.now)) }
    {
        match number {
            Some(number) => {
                self.define_in(alloc, number, name, draft)?;
                Ok(number)
            }
            None => {
                let number = self.scopes.len();
                self.define_first(alloc, name, draft)?;
                Ok(number)
            }
        }
    }

    /// Appends the node that defines a name in a namespace that has a number.
    fn define_in(
        &mut self,
        alloc: Global,
        number: usize,
        name: &Name,
        draft: Draft<'v>,
    ) -> Result<(), AllocError>
        requires new { defined_at name.now (heads_of self.old) ≡ None }
        requires named { head_of (draft_of draft) ≡ Named name.now }
        requires numbered { slice_get (namespaces_of (heads_of self.old)) number ≡ Some
            (namespace_of name.now) }
        ensures nodes { OnOk result (self.new ≡ self.old ++ draft_of draft.entry ∷ []) }
        ensures refused { OnErr result (self.new ≡ self.old) }
    {
        name.has_two_parts(); // law
        let scope = &mut self.scopes[number];
        add_named(alloc, &mut self.nodes, scope, name.last(), draft)?;
        Ok(())
    }

    /// Appends the node that defines the first name of a namespace.
    fn define_first(
        &mut self,
        alloc: Global,
        name: &Name,
        draft: Draft<'v>,
    ) -> Result<(), AllocError>
        requires named { head_of (draft_of draft) ≡ Named name.now }
        requires first { place_of (namespace_of name.now) (namespaces_of (heads_of self.old)) ≡ None }
        ensures nodes { OnOk result (self.new ≡ self.old ++ draft_of draft.entry ∷ []) }
        ensures refused { OnErr result (self.new ≡ self.old) }
    {
        name.has_two_parts(); // law
        let (nodes, numbers, scopes) = (&mut self.nodes, &mut self.numbers, &mut self.scopes);
        let (namespace, last) = (name.namespace(), name.last());
        let parts = NameParts { namespace, last };
        add_first_named(alloc, nodes, numbers, scopes, &parts, draft)?;
        Ok(())
    }

    /// Replaces a node by one with the same head.
    pub fn set(&mut self, node: usize, draft: Draft<'v>)
        requires { slice_get (heads_of self.old) node ≡ Some (head_of (draft_of draft)) }
        ensures { self.new ≡ set self.old node (draft_of draft.entry) }
    {
        put(&mut self.nodes, node, draft);
    }
}

/// The fields of a record so far, and their names. Callers see them as a list of `DraftField`s.
#[derive(Drop)]
pub struct FieldList<'v> {
    fields: Vec<DraftField<'v>>,
    names: BTreeSet<String>,
}

impl<'v> Model for FieldList<'v> {
    ghost use Rattle.std.specs.Prelude.{List, map};
    ghost use Rattle.std.specs.Coded.{codes};
    ghost use Rattle.spec_schema.specs.Draft.{DraftField};
    ghost use Rattle.avro_schema_names.specs.Draft.{draft_field_of};
    ghost use Rattle.avro_schema_names.specs.Index.{AreNamesOf};
    ghost use Rattle.avro_schema_names.specs.JsonCode.{json_coded};

    ghost Value = { List DraftField };

    ghost coded = { Prim.hlevel (codes, json_coded) };

    ghost view = { λ l. map draft_field_of l.fields.items };

    ghost invariant = { λ l. AreNamesOf l.names (map draft_field_of l.fields.items) };
}

impl<'v> FieldList<'v> {
    pub fn new(alloc: Global) -> Self
        ensures { result ≡ [] }
    {
        FieldList {
            fields: Vec::new(alloc),
            names: BTreeSet::new(alloc),
        }
    }

    /// Returns the number of fields.
    pub fn len(&self) -> usize
        ensures { result ≡ length self.now }
    {
        self.fields.len()
    }

    /// Returns the fields, in order, and drops the index of their names.
    pub fn into_fields(self) -> Vec<DraftField<'v>>
        ensures { map draft_field_of result.items ≡ self.entry }
    {
        self.fields
    }

    /// Returns whether one of the fields has a name.
    pub fn is_used(&self, name: &str) -> bool
        ensures { result ≡ is_used name.now (field_names self.now) }
    {
        self.names.contains(name)
    }

    /// Appends a field. An `Err` leaves the fields as they were.
    pub fn push(&mut self, field: DraftField<'v>) -> Result<(), AllocError>
        ensures fields { OnOk result (self.new ≡ self.old ++ draft_field_of field.entry ∷ []) }
        ensures refused { OnErr result (self.new ≡ self.old) }
    {
        let name = field.name.clone()?;
        self.fields.push(field)?;
        match self.names.insert(name) {
            Ok(_) => Ok(()),
            Err(_) => {
                self.fields.pop();
                Err(AllocError)
            }
        }
    }
}
