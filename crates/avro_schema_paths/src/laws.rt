//! The laws of paths. They do nothing when they run.

ghost use Rattle.avro_schema_paths.specs.Following.{PathsLeadThere};
ghost use Rattle.avro_schema_paths.specs.Laws.{EachNodeHasOnePath, EachNodeHasPath, OnlyNodesHavePaths, ReadValueIsDeclared};
ghost use Rattle.avro_schema_paths.specs.Pointers.{PointersLeadThere};

/// The law that each node that a schema's value declares has a path in that value.
pub fn each_node_has_path()
    ensures { EachNodeHasPath }
{}

/// The law that each node has no more than one path in the value that declares it, and that nothing else has one.
pub fn each_node_has_one_path()
    ensures one { EachNodeHasOnePath }
    ensures nodes { OnlyNodesHavePaths }
{}

/// The law that each path of a node leads to a value that declares a type, or that wraps one which does.
pub fn paths_lead_there()
    ensures { PathsLeadThere }
{}

/// The law that the pointer of a path leads where the path does.
pub fn pointers_lead_there()
    ensures { PointersLeadThere }
{}

/// The law that the value which the text of a schema reads as declares the schema's nodes.
pub fn read_value_is_declared()
    ensures { ReadValueIsDeclared }
{}
