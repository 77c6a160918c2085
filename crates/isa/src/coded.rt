//! Operations by their codes.

ghost use Rattle.std.specs.Prelude.{◌≡◌, slice_get};
ghost use Rattle.spec_machine.specs.Operation.{at_code};

use spec_machine::{OPERATIONS, Operation};

/// Returns the operation at an index of a table; `None` past its end.
fn in_table(table: &[Operation], place: usize) -> Option<Operation>
    ensures { result ≡ slice_get table.now place }
{
    table.get(place).copied()
}

/// Returns the operation with a code; `None` where no operation has it.
#[tactic(auto, using(crate::proofs::Operations::at_place))]
pub fn operation_at(code: u8) -> Option<Operation>
    ensures { result ≡ at_code code }
{
    if code == 0 {
        return None;
    }
    in_table(&OPERATIONS, code as usize - 1)
}
