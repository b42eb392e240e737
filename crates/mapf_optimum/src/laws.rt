//! What holds of every search that may branch on any conflict: functions that do nothing, each with one law as its contract.

ghost use Rattle.mapf_optimum.specs.Laws.{HasASide, ExpansionCovers, BoundingCovers, LeastIsOptimum, LeastLabelIsBelow, NothingWaits, SearchEnds};
ghost use Rattle.mapf_optimum.specs.Groups.{GroupsRestrict, GroupsAdd};

/// A candidate at a node is one on one of the two sides of any conflict of its plan.
pub fn has_a_side()
    ensures { HasASide }
{}

/// An expansion loses no candidate.
pub fn expansion_covers()
    ensures { ExpansionCovers }
{}

/// Nor does a label that is found.
pub fn bounding_covers()
    ensures { BoundingCovers }
{}

/// A plan without conflict of a node of the least label is an optimum.
pub fn least_is_optimum()
    ensures { LeastIsOptimum }
{}

/// No valid plan costs less than the least label.
pub fn least_label_is_below()
    ensures { LeastLabelIsBelow }
{}

/// Where nothing waits, there is no valid plan within the bound.
pub fn nothing_waits()
    ensures { NothingWaits }
{}

/// Some number falls with each step, so a search ends.
pub fn search_ends()
    ensures { SearchEnds }
{}

/// A candidate has a candidate of each group of agents.
pub fn groups_restrict()
    ensures { GroupsRestrict }
{}

/// What groups without a common agent cost at least comes to a lower bound.
pub fn groups_add()
    ensures { GroupsAdd }
{}
