//! The law of machines. It does nothing when it runs.

ghost use Rattle.std.specs.Prelude.{ℕ, List, ◌++◌};
ghost use Rattle.spec_machine.specs.Program.{Program};
ghost use Rattle.machine.specs.Running.{IsOn, IsUnder, Running, start};

/// The law that a new machine is under every program and on every input, and that a machine which is on an input is on
/// every longer one.
pub fn machines_go_on_with_more_input()
    ensures under { (P : Program) → IsUnder P start }
    ensures begins { (input : List ℕ) → IsOn input start }
    ensures stays { (input more : List ℕ) (r : Running) → IsOn input r → IsOn (input ++ more) r }
{}
