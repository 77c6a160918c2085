//! What a store of programs owes.

ghost use Rattle.session_core.specs.Publishing.{IsPublished};

use avro_schema::Schema;
use machine::PlannedProgram;
use spec_sessions::PublishError;

/// A store of the programs of pairs of schemas.
pub trait Programs {
    /// Returns the program of a pair, which is made where the store has none.
    fn publish(&self, writer: &Schema, reader: &Schema) -> Result<&PlannedProgram, PublishError>
        ensures { IsPublished writer.now.nodes reader.now.nodes result };
}
