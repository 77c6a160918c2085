//! The cells that threads share.

use crate::held::Held;
use crate::upstream::Upstream;
use id_cells::IdTable;
use schema_registry::SharedRegistry;
use std::marker::Model;

/// What threads share: this process's registry, and the table of what is held for each id of the upstream registry.
/// Callers see it as the names of the cells of the two.
#[derive(Drop)]
pub(crate) struct SharedCells<'r, U: Upstream> {
    pub(crate) registry: &'r SharedRegistry,
    pub(crate) table: IdTable<Held<U>>,
}

impl<'r, U: Upstream> Model for SharedCells<'r, U> {
    ghost use Rattle.spec_service.specs.UpstreamNaming.{Names};

    ghost Value = { Names };

    ghost view = { λ s. record { registry = s.registry.now; table = s.table } };
}
