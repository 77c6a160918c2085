//! The bytes of an id.

ghost use Rattle.std.specs.Prelude.{◌≡◌, ◌<◌, ◌≤◌};
ghost use Rattle.spec_registry.specs.Path.{byte_of};
ghost use Rattle.id_cells.specs.declared.limits.TheConstants.{BYTES, CELLS};

use crate::limits::{BYTES, CELLS};

/// Returns a byte of an id, by how many bytes of the id come after it: 3 for the highest byte, 0 for the lowest.
pub(crate) fn byte_of(id: u32, after: u32) -> usize
    requires { after < BYTES }
    ensures byte { result ≡ byte_of id after }
    ensures below { result < CELLS }
{
    (id >> (8 * after)) as usize % CELLS
}
