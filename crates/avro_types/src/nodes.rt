//! The nodes of a schema.

ghost use Rattle.std.specs.Prelude.{◌≡◌, ◌<◌, length, Some, slice_get};
ghost use Rattle.spec_avro.specs.Conforming.{DefaultsConform};
ghost use Rattle.avro_types.specs.Node.{node_of, nodes_of};
ghost use Rattle.spec_avro.specs.Sizes.{DefaultsHaveSizesWithin};
ghost use Rattle.avro_types.specs.Valid.{AreValid};
ghost use Rattle.spec_avro.specs.WellFormed.{IsWellFormed, NodeIsWellFormed};

use crate::kind::Kind;
use crate::limits::MOST_TEXT;
use std::marker::Model;

/// The nodes of a schema (Avro 1.11, "Schema Declaration"), which name each other by their numbers, from 0. Callers see
/// them as a list of `Node`s.
#[derive(Debug, Drop)]
pub struct Nodes {
    kinds: Vec<Kind>,
}

impl Model for Nodes {
    ghost use Rattle.std.specs.Prelude.{List};
    ghost use Rattle.std.specs.Coded.{codes};
    ghost use Rattle.avro_types.specs.DatumCode.{datum_coded};
    ghost use Rattle.spec_avro.specs.Node.{Node};
    ghost use Rattle.avro_types.specs.Node.{nodes_of};
    ghost use Rattle.avro_types.specs.Valid.{AreValid};

    ghost Value = { List Node };

    ghost coded = { Prim.hlevel (codes, datum_coded) };

    ghost view = { λ n. nodes_of n.kinds.items };

    ghost invariant = { λ n. AreValid (nodes_of n.kinds.items) };
}

impl Nodes {
    /// Returns the nodes of these kinds, each numbered by its position.
    pub fn new(kinds: Vec<Kind>) -> Nodes
        requires { AreValid (nodes_of kinds.items) }
        ensures { result ≡ nodes_of kinds.items }
    {
        Nodes { kinds }
    }

    /// Returns the number of nodes.
    pub fn len(&self) -> usize
        ensures { result ≡ length self.now }
    {
        self.kinds.len()
    }

    /// Returns the kind of a node.
    pub fn kind(&self, node: usize) -> &Kind
        requires { node < length self.now }
        ensures kind { slice_get self.now node ≡ Some (node_of result.now) }
        ensures well_formed { NodeIsWellFormed self.now node (node_of result.now) }
    {
        &self.kinds[node]
    }

    /// The law that nodes name nodes of the same schema, the root is one, names are defined once, and the fields of a
    /// record, the symbols of an enum and the branches of a union are apart.
    pub fn is_well_formed(&self)
        ensures { IsWellFormed self.now }
    {
        let _opened = &self.kinds; // read for the proof
    }

    /// The law that each default of a field is of the field's type.
    pub fn defaults_conform(&self)
        ensures { DefaultsConform self.now }
    {
        let _opened = &self.kinds; // read for the proof
    }

    /// The law that no text, byte string or key in a default is longer, and no array or map in it of more items, than
    /// the text of a schema may have bytes.
    pub fn defaults_are_short(&self)
        ensures { DefaultsHaveSizesWithin MOST_TEXT MOST_TEXT self.now }
    {
        let _opened = &self.kinds; // read for the proof
    }
}
