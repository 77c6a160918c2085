//! Laws of programs that are run alone. They do nothing when they run.

ghost use Rattle.spec_machine.specs.Alone.{EndsAreLast, RowsAreCounted, RunsGoOn, RunsStay, RunsStayInside};
ghost use Rattle.spec_machine.specs.Simulation.{EachEndIsOutcome, EarlyEndIsOutcome, IsSimulated};
ghost use Rattle.program_correctness.specs.Worked.{CutIsTruncated, ElevenRowsEnd, HaltWaits, NoRowIsBehindTheEnd};

use avro_types::Nodes;

/// The law that the program of a pair of schemas, run alone on a payload that has ended, comes within the row bound to
/// an end, which is the payload's outcome. Whatever end a run comes to is the outcome, so that none is a trap; and one
/// that it comes to before the input has ended is the outcome with every continuation.
pub fn program_ends_with_the_outcome(writer: &Nodes, reader: &Nodes)
    ensures simulated { IsSimulated writer.now reader.now }
    ensures each_end { EachEndIsOutcome writer.now reader.now }
    ensures early_end { EarlyEndIsOutcome writer.now reader.now }
{
    writer.is_well_formed(); // law
    program_definition::program_is_linked(writer, reader); // law
    program_definition::program_is_in_range(writer, reader); // law
    isa::rows_stay_within_bounds(); // law
    isa::row_stays_on_longer_input(); // law
}

/// The law of what holds of every program that is run alone: its count is that of its rows, it goes on from where it
/// is but for an end, it stays inside its input, and it is the same on longer input.
pub fn runs_alone_are_counted_and_stay()
    ensures counted { RowsAreCounted }
    ensures go_on { RunsGoOn }
    ensures ends { EndsAreLast }
    ensures inside { RunsStayInside }
    ensures stay { RunsStay }
{
    isa::row_stays_on_longer_input(); // law
}

/// The law of what a worked program comes to, run alone: its end, with no row after it; that it waits before its input
/// has ended; and the end that a cut input has.
pub fn worked_program_runs_alone()
    ensures ends { ElevenRowsEnd }
    ensures no_more { NoRowIsBehindTheEnd }
    ensures waits { HaltWaits }
    ensures cut { CutIsTruncated }
{}
