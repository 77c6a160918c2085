//! Laws of matching and of partners. They do nothing when they run.

ghost use Rattle.spec_avro.specs.Matches.{MatchesWhereItHolds};
ghost use Rattle.spec_avro.specs.Matching.{MatchesByRule};
ghost use Rattle.spec_avro.specs.Partners.{AliasesAreTaken, EarlierAliasesWereTaken, NamesGoFirst, OthersGoByAlias, PartnersAreApart};

/// The law that matching is the rule as the standard writes it, however deep arrays and maps nest: what `matches`
/// computes is true exactly where the relation holds.
pub fn matches_by_rule()
    ensures rule { MatchesByRule }
    ensures relation { MatchesWhereItHolds }
{}

/// The law that a field goes to the one of its name, where there is one, and else by an alias of its partner's, which
/// is taken where it can be; no two of a writer's fields have one partner. The reader's fields take their aliases in
/// the declared order, each the first that it can.
pub fn partners_by_rule()
    ensures name { NamesGoFirst }
    ensures alias { OthersGoByAlias }
    ensures taken { AliasesAreTaken }
    ensures earlier { EarlierAliasesWereTaken }
    ensures apart { PartnersAreApart }
{}
