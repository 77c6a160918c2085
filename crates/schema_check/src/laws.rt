//! Laws of bad pairs. They do nothing when they run.

ghost use Rattle.schema_check.specs.BadKinds.{BadPairsHaveKinds};
ghost use Rattle.schema_check.specs.Details.{BadPairsHaveDetails};
ghost use Rattle.schema_check.specs.Mismatches.{MismatchesHaveBadPairs};
ghost use Rattle.schema_check.specs.OneCheck.{OneIsFound, OneWayIsByParents, SomeAreFound, SomeWayIsByParents};

/// The law that a pair is bad just where it is by some kind.
pub fn bad_pair_has_a_kind()
    ensures { BadPairsHaveKinds }
{}

/// The law that `all_lacking` has a position for each pair that is bad by `NoDefault`, and `all_missing` for each that
/// is by `NoSymbol`.
pub fn bad_pair_has_details()
    ensures { BadPairsHaveDetails }
{}

/// The law that each pair of schemas has reached pairs with their parents, and bad ones, and just one list of each.
pub fn pair_has_one_check()
    ensures some { SomeAreFound }
    ensures one { OneIsFound }
{}

/// The law that each place of a check has a way by the parents, and just one.
pub fn place_has_one_way()
    ensures some { SomeWayIsByParents }
    ensures one { OneWayIsByParents }
{}

/// The law that each mismatch of a writer's datum, but of bytes, is at a bad pair that is reached.
pub fn mismatch_is_at_a_bad_pair()
    ensures { MismatchesHaveBadPairs }
{}
