//! What holds of queries and of the states that views keep.
ghost use Rattle.cq_model_laws.specs.Laws.{ChainLaw, ConditionBelowJoins, ExtremesAreCounted, GroupShows, GroupsDependOnBag, JoinedRowsGoOn, KeptShows, LastShows, MeaningDependsOnBags, MeaningDependsOnSources, MeaningIsBag, OwnConditionsAreImplied, ViewsDependOnBags};
ghost use Rattle.cq_model_laws.specs.Sizes.{GroupsKeepSizes, JoinedRowsKeepSizes};

/// A chain of joins over changed sources is the old chain and what the changes add.
pub fn chain_law()
    ensures { ChainLaw }
{}

/// The rows that WHERE keeps change with the chain.
pub fn joined_rows_go_on()
    ensures { JoinedRowsGoOn }
{}

/// Counts, totals, MIN, MAX and groups are those of the bag, however it is listed.
pub fn groups_depend_on_bag()
    ensures { GroupsDependOnBag }
{}

/// MIN and MAX are the extremes of the values, each with its count.
pub fn extremes_are_counted()
    ensures { ExtremesAreCounted }
{}

/// A condition that WHERE implies may be put below the joins.
pub fn condition_below_joins()
    ensures { ConditionBelowJoins }
{}

/// A condition that names one source alone and is joined to the rest by AND may be put below the joins.
pub fn own_conditions_are_implied()
    ensures { OwnConditionsAreImplied }
{}

/// A query means the same over the same bags of the sources that FROM names, however they are listed.
pub fn meaning_depends_on_sources()
    ensures { MeaningDependsOnSources }
{}

/// A query means the same over the same bags, however they are listed.
pub fn meaning_depends_on_bags()
    ensures { MeaningDependsOnBags }
{}

/// A query that names views means the same over the same tables, however they are listed.
pub fn views_depend_on_bags()
    ensures { ViewsDependOnBags }
{}

/// No row of a query over bags is negative.
pub fn meaning_is_bag()
    ensures { MeaningIsBag }
{}

/// What is kept of an aggregate is enough to show it.
pub fn kept_shows()
    ensures { KeptShows }
{}

/// What is kept of a group is enough to show its row.
pub fn group_shows()
    ensures { GroupShows }
{}

/// What a view keeps behind its joins, and a list of its keys, are enough to show the rows of its query.
pub fn last_shows()
    ensures { LastShows }
{}

/// Joined rows have the columns of each source, one behind the other, with their sizes.
pub fn joined_rows_keep_sizes()
    ensures { JoinedRowsKeepSizes }
{}

/// Groups have the sizes of their key's columns, and of counts, totals and values, where the totals can be shown.
pub fn groups_keep_sizes()
    ensures { GroupsKeepSizes }
{}
