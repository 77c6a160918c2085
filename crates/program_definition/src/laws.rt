//! Laws of the program of a pair. They do nothing when they run.

ghost use Rattle.program_definition.specs.Limits.{NoStatementIsLost, NoneByLimitsAlone, SectionsAreFound};
ghost use Rattle.program_definition.specs.Linking.{ProgramIsInRange, ProgramIsLinked};
ghost use Rattle.program_definition.specs.Worked.{LongListHasItsProgram, PairHasItsProgram, ReaderHasItsProgram, RenamedHasItsProgram};

use avro_types::Nodes;

/// The law that the code of a pair of schemas is in its program, statement by statement as the compiler's table has
/// it: the roots' code first, and each routine where it is called.
pub fn program_is_linked(writer: &Nodes, reader: &Nodes)
    ensures { ProgramIsLinked writer.now reader.now }
{
    writer.is_well_formed(); // law
}

/// The law that the program of a pair of schemas refers only to what it has, so that `isa` takes it as it is.
pub fn program_is_in_range(writer: &Nodes, reader: &Nodes)
    ensures { ProgramIsInRange writer.now reader.now }
{
    writer.is_well_formed(); // law
    reader.is_well_formed(); // law
}

/// The law that each pair of schemas has a whole program, all of whose sections are found and none of whose statements
/// is lost, and that `code_of` has none only where that passes a limit.
pub fn no_program_only_past_a_limit(writer: &Nodes, reader: &Nodes)
    ensures found { SectionsAreFound writer.now reader.now }
    ensures statements { NoStatementIsLost writer.now reader.now }
    ensures limit { NoneByLimitsAlone writer.now reader.now }
{
    writer.is_well_formed(); // law
    reader.is_well_formed(); // law
}

/// The law that worked pairs have the programs that the compiler's table makes of them: two records to themselves, one
/// to a record that takes its fields by aliases, and one with misses, an entry of a map, a skipped field and a default.
pub fn worked_pairs_have_their_programs()
    ensures list { LongListHasItsProgram }
    ensures same { PairHasItsProgram }
    ensures renamed { RenamedHasItsProgram }
    ensures other { ReaderHasItsProgram }
{}
