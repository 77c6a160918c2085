//! Laws of the instruction table. They do nothing when they run.

ghost use Rattle.std.specs.Prelude.{◌≡◌, ◌↔◌, ◌≢◌, ◌≤◌, ◌+◌, ◌++◌, ℕ, Bool, List, None, Some, is_some, length, true, false};
ghost use Rattle.spec_machine.specs.declared.instr.Instr.{Instr};
ghost use Rattle.spec_machine.specs.declared.operation.Operation.{Operation};
ghost use Rattle.isa.specs.Bounds.{IsBounded};
ghost use Rattle.spec_machine.specs.Operation.{at_code, code_of, instr_of, operand_of, operation_of};
ghost use Rattle.spec_machine.specs.Program.{Program};
ghost use Rattle.spec_machine.specs.Row.{row_of};
ghost use Rattle.spec_machine.specs.State.{State, start};
ghost use Rattle.isa.specs.Worked.{BooleanIsBad, LongIsTaken, TextIsBegun};

/// The law that a state has an end or a row, where the input has ended.
pub fn row_or_end_is_there()
    ensures { (P : Program) (input : List ℕ) (s : State) → s.end ≡ None
        → is_some (row_of P input true s) ≡ true }
{}

/// The law that a row that is taken before the input has ended is the same on every longer input, ended or not.
pub fn row_stays_on_longer_input()
    ensures { (P : Program) (input more : List ℕ) (ended : Bool) (s new : State) → s.pos ≤ length input →
        row_of P input false s ≡ Some new → row_of P (input ++ more) ended s ≡ Some new }
{}

/// The law that a row that sets the end changes nothing but the end and the count.
pub fn row_that_ends_changes_nothing_else()
    ensures { (P : Program) (input : List ℕ) (ended : Bool) (s new : State) →
        row_of P input ended s ≡ Some new → new.end ≢ None → new ≡ record s { count = s.count + 1; end = new.end } }
{}

/// The law that a run begins within the bounds of frames, calls, units and bytes held, and that no row passes them.
pub fn rows_stay_within_bounds()
    ensures begins { IsBounded start }
    ensures stays { (P : Program) (input : List ℕ) (ended : Bool) (s new : State) →
        row_of P input ended s ≡ Some new → IsBounded s → IsBounded new }
{}

/// The law that each instruction has one operation and operand, and each operation one code.
pub fn operations_go_with_instructions_and_codes()
    ensures instrs { (i : Instr) → instr_of (operation_of i) (operand_of i) ≡ i }
    ensures operations { (o : Operation) (n : ℕ) → operation_of (instr_of o n) ≡ o }
    ensures codes { (o : Operation) (code : ℕ) → at_code code ≡ Some o ↔ code_of o ≡ code }
{}

/// The law that the rows of worked programs come out: a long is taken, a text is begun, and a byte that is no boolean
/// is the end.
pub fn worked_rows_come_out()
    ensures long { LongIsTaken }
    ensures text { TextIsBegun }
    ensures boolean { BooleanIsBad }
{}
