//! The encoding of the data of a node.

ghost use Rattle.std.specs.Prelude.{◌≡◌, ◌<◌, length};

use crate::walking::{read_node, skip_node};
use avro_bytes::{Fault, Meter, WireForm};
use avro_types::{Datum, Nodes};
use std::alloc::Global;
use std::marker::Model;

/// The encoding of the data of a node.
#[derive(Drop)]
pub struct NodeForm<'s> {
    alloc: Global,
    nodes: &'s Nodes,
    node: usize,
}

impl<'s> Model for NodeForm<'s> {
    ghost use Rattle.std.specs.Prelude.{◌<◌, length};
    ghost use Rattle.std.specs.Coded.{codes};
    ghost use Rattle.avro_types.specs.DatumCode.{datum_coded};
    ghost use Rattle.avro_datum.specs.Form.{Form};

    ghost Value = { Form };

    ghost coded = { Prim.hlevel (codes, datum_coded) };

    ghost view = { λ f. record { nodes = f.nodes.now; node = f.node } };

    ghost invariant = { λ f. f.node < length f.nodes.now };
}

impl<'s> NodeForm<'s> {
    /// Returns the form of one of the nodes.
    pub fn new(alloc: Global, nodes: &'s Nodes, node: usize) -> NodeForm<'s>
        requires { node < length nodes.now }
        ensures { result ≡ record { nodes = nodes.now; node = node } }
    {
        NodeForm { alloc, nodes, node }
    }
}

impl<'s> WireForm for NodeForm<'s> {
    ghost use Rattle.spec_avro.specs.Meter.{Counts};
    ghost use Rattle.spec_avro.specs.Datum as datum;
    ghost use Rattle.avro_types.specs.Datum as datum_here;
    ghost use Rattle.avro_datum.specs.Decoding.{datum_at};
    ghost use Rattle.spec_avro.specs.FaultyDatum.{FaultyDatum};
    ghost use Rattle.avro_datum.specs.Memory.{Lacks};
    ghost use Rattle.spec_avro.specs.Spelling.{Spells, depth_of, units_of};
    ghost use Rattle.avro_datum.specs.Laws.Complete.{datum_complete};
    ghost use Rattle.avro_datum.specs.Laws.Defects.{datum_defect};
    ghost use Rattle.avro_datum.specs.Laws.OneForm.{datum_one_form};
    ghost use Rattle.avro_datum.specs.Laws.Sound.{datum_sound};
    ghost use Rattle.avro_datum.specs.Laws.Steady.{datum_steady};
    ghost use Rattle.avro_datum.specs.Laws.Told.{datum_told};

    type Value = Datum;

    ghost Meaning = { datum.Datum };

    ghost meaning = { datum_here.datum_of };

    ghost spells = { λ f d bytes. Spells f.nodes f.node d bytes };

    ghost faulty = { λ f bytes m d. FaultyDatum f.nodes f.node bytes m d };

    ghost counts = { λ d m after. Counts (depth_of d) (units_of d) m after };

    ghost lacks = { λ f decoding. Lacks f.nodes f.node decoding };

    ghost decoding = { λ f bytes at m. datum_at f.nodes bytes f.node at m };

    ghost sound = { λ f bytes at m d to after e. datum_sound f.nodes bytes f.node at m d to after e };

    ghost complete = { λ f before spelling rest m d after s t.
        datum_complete f.nodes f.node before spelling rest m d after s t };

    ghost one_form = { λ f a b x y v w s t e. datum_one_form f.nodes f.node v w a b x y s t e };

    ghost steady = { λ f bytes more at m le c. datum_steady f.nodes bytes more f.node at m le c };

    ghost defect = { λ f bytes at m le. datum_defect f.nodes bytes f.node at m };

    ghost told = { λ f before bytes m d h. datum_told f.nodes f.node before bytes m d h };

    fn read(&self, bytes: &[u8], at: usize, meter: Meter) -> Result<(Datum, usize, Meter), Fault> {
        read_node(self.alloc, self.nodes, self.node, bytes, at, meter)
    }

    fn skip(&self, bytes: &[u8], at: usize, meter: Meter) -> Result<(usize, Meter), Fault> {
        skip_node(self.alloc, self.nodes, self.node, bytes, at, meter)
    }
}
