//! The laws of places. They do nothing when they run.

ghost use Rattle.avro_schema_faults.specs.Laws.{EachFaultHasOnePlace, PlacesAreOfFaults, PlacesLeadToFaults, RecordPathsLeadToRecords};

/// The law that the place of a fault leads to a value whose walk ends with that fault, while that of no part of it
/// fails.
pub fn places_lead_to_faults()
    ensures { PlacesLeadToFaults }
{}

/// The law that the walk of a value which has a fault at a place ends with that fault, and that there is no more than
/// one such place.
pub fn each_fault_has_one_place()
    ensures fails { PlacesAreOfFaults }
    ensures one { EachFaultHasOnePlace }
{}

/// The law that the path of a record, to which the path of a bad default adds the steps to its field, leads to an
/// object whose `type` is that of records.
pub fn record_paths_lead_to_records()
    ensures { RecordPathsLeadToRecords }
{}
