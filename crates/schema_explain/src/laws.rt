//! Laws of explanations. They do nothing when they run.

ghost use Rattle.schema_explain.specs.Becoming.{FatesAreMet};
ghost use Rattle.schema_explain.specs.Lines.{EachBadPairHasALine, EachMismatchHasALine, EachPairHasALine, MismatchesAreAtBadPairs, SafeWhereNoLineMismatches, ThereIsOneExplanation};

use avro_types::Nodes;
use resolver::partners_by_rule;

/// The law that no part is missing: each pair of nodes that the roots lead to has a line.
pub fn each_pair_has_a_line(writer: &Nodes, reader: &Nodes)
    ensures { EachPairHasALine writer.now reader.now }
{
    writer.is_well_formed(); // law
    reader.is_well_formed(); // law
    partners_by_rule(); // law
}

/// The law that no bad pair is left out: each one that the roots lead to has a line with a mismatch.
pub fn each_bad_pair_has_a_line(writer: &Nodes, reader: &Nodes)
    ensures { EachBadPairHasALine writer.now reader.now }
{
    writer.is_well_formed(); // law
    reader.is_well_formed(); // law
    partners_by_rule(); // law
}

/// The law that each line with a mismatch is at a bad pair that the roots lead to.
pub fn mismatches_are_at_bad_pairs(writer: &Nodes, reader: &Nodes)
    ensures { MismatchesAreAtBadPairs writer.now reader.now }
{
    reader.is_well_formed(); // law
}

/// The law that whatever mismatch a datum of the writer meets has a line, with its kind and its nodes; of bytes that
/// are no text, the line that they are promoted if they are.
pub fn each_mismatch_has_a_line(writer: &Nodes, reader: &Nodes)
    ensures { EachMismatchHasALine writer.now reader.now }
{
    writer.is_well_formed(); // law
    reader.is_well_formed(); // law
    partners_by_rule(); // law
}

/// The law that no line has a mismatch just where no bad pair is reached, so that all that the writer writes can be
/// read.
pub fn safe_where_no_line_mismatches(writer: &Nodes, reader: &Nodes)
    ensures { SafeWhereNoLineMismatches writer.now reader.now }
{
    each_bad_pair_has_a_line(writer, reader); // law
    mismatches_are_at_bad_pairs(writer, reader); // law
}

/// The law that each datum becomes what the fate of its pair says: what is copied is the datum, what is promoted is it
/// in the other type, bytes become a string where they are UTF-8, and what mismatches does so whatever the datum.
pub fn fates_are_met(writer: &Nodes, reader: &Nodes)
    ensures { FatesAreMet writer.now reader.now }
{
    reader.is_well_formed(); // law
}

/// The law that two schemas have one explanation.
pub fn there_is_one_explanation(writer: &Nodes, reader: &Nodes)
    ensures { ThereIsOneExplanation writer.now reader.now }
{}
