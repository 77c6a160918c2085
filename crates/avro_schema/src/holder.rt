//! The kinds that hold values of one type: arrays and maps.

ghost use Rattle.std.specs.Prelude.{◌≡◌};
ghost use Rattle.avro_types.specs.Node.{node_of};
ghost use Rattle.avro_schema.specs.Holder.{holder_node};

use avro_types::Kind;

/// A kind that holds values of one type.
#[derive(Clone, Copy)]
pub enum Holder {
    Array,
    Map,
}

impl Holder {
    /// Returns the kind that holds values of a node's type.
    pub fn kind(self, inner: usize) -> Kind
        ensures { node_of result ≡ holder_node self inner }
    {
        match self {
            Holder::Array => Kind::Array(inner),
            Holder::Map => Kind::Map(inner),
        }
    }
}
