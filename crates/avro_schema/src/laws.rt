//! The law of what a text declares. It does nothing when it runs.

ghost use Rattle.spec_schema.specs.SchemaLaw.{FaultsWhereNoneIsDeclared, NodesAreThoseDeclared};

/// The law that the nodes of a text are those that it declares, and so that a fault is reported exactly where it
/// declares none.
pub fn parsed_schema_is_declared()
    ensures nodes { NodesAreThoseDeclared }
    ensures faults { FaultsWhereNoneIsDeclared }
{}
