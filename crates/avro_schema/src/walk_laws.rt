//! The law of the walk. It does nothing when it runs.

ghost use Rattle.avro_schema.specs.DeclaringLaws.{DeclaresWhatIsGiven, GivesWhatIsDeclared};

/// The law that the walk returns the nodes that a value declares, and no others.
pub fn walk_gives_what_is_declared()
    ensures sound { DeclaresWhatIsGiven }
    ensures complete { GivesWhatIsDeclared }
{}
