//! What holds of the constraint tree, its answer and a search in it: functions that do nothing,
//! each with one law as its contract.

ghost use Rattle.mapf_tree.specs.Prelude.{OneAgentsAnswer, ObeysOneSide, ConstraintIsNew, ConstraintIsEarly, LeaderAtStart, ObeyedIsInCost, NoneIsDearer, DepthIsBounded, TreeIsFinite, AnswerExists, AnswerIsUnique, StatedIsUnique, AnswerIsOptimum, NoneIsNone, SearchStarts, TakesNext, EndsAtAnswer, TakenAreBounded};

/// For one agent the answer is its own path, and none where it may take no path.
#[tactic(auto, using(crate::proofs::solutions::OneAgent::one_agents_answer))]
pub fn one_agents_answer()
    ensures { OneAgentsAnswer }
{}

/// A valid plan that obeys a node of the tree obeys one of the sides of the conflict of the node's plan.
#[tactic(auto, using(crate::proofs::sides::Branch::obeys_one_side))]
pub fn obeys_one_side()
    ensures { ObeysOneSide }
{}

/// What a side forbids its agent, the node doesn't forbid it yet.
pub fn constraint_is_new()
    ensures { ConstraintIsNew }
{}

/// A side forbids nothing at a time step after the bound.
pub fn constraint_is_early()
    ensures { ConstraintIsEarly }
{}

/// A leader that is on its start can't have left it a time step before: that side of a following conflict isn't in the tree.
#[tactic(auto, using(crate::proofs::sides::LeaderSides::leader_at_start))]
pub fn leader_at_start()
    ensures { LeaderAtStart }
{}

/// If a valid plan within the bound obeys a node, the node has a plan, which costs no more.
#[tactic(auto, using(crate::proofs::solutions::Descent::obeyed_is_in_cost))]
pub fn obeyed_is_in_cost()
    ensures { ObeyedIsInCost }
{}

/// An agent's path in the plan of a node costs at most what the other agents' paths leave of the bound.
#[tactic(auto, using(crate::proofs::sides::SideNodes::none_is_dearer))]
pub fn none_is_dearer()
    ensures { NoneIsDearer }
{}

/// No name in the tree is longer than there are constraints for all agents up to the bound.
#[tactic(auto, using(crate::proofs::solutions::Descent::depth_is_bounded))]
pub fn depth_is_bounded()
    ensures { DepthIsBounded }
{}

/// The tree is finite: a list holds exactly its nodes.
#[tactic(auto, using(crate::proofs::finite::Finite::tree_is_finite))]
pub fn tree_is_finite()
    ensures { TreeIsFinite }
{}

/// Each instance has an answer under each bound.
#[tactic(auto, using(crate::proofs::solutions::Solutions::answer_exists))]
pub fn answer_exists()
    ensures { AnswerExists }
{}

/// An instance has one answer at most under a bound.
#[tactic(auto, using(crate::proofs::Unique::answer_is_unique))]
pub fn answer_is_unique()
    ensures { AnswerIsUnique }
{}

/// An instance has one stated answer at most under a bound and a limit on nodes.
#[tactic(auto, using(crate::proofs::high_level::Limits::stated_is_unique))]
pub fn stated_is_unique()
    ensures { StatedIsUnique }
{}

/// The plan of the answer is valid and within the bound, and no valid plan costs less.
#[tactic(auto, using(crate::proofs::solutions::Descent::answer_is_optimum))]
pub fn answer_is_optimum()
    ensures { AnswerIsOptimum }
{}

/// The answer is none exactly if no valid plan is within the bound.
pub fn none_is_none()
    ensures { NoneIsNone }
{}

/// A search begins with the root, if that is in the tree.
pub fn search_starts()
    ensures { SearchStarts }
{}

/// The least waiting node is the next one of the tree, by cost, depth and name.
pub fn takes_next()
    ensures { TakesNext }
{}

/// A search that takes a plan without a conflict has the first solution, and one that has nothing left has none.
pub fn ends_at_answer()
    ensures { EndsAtAnswer }
{}

/// A search takes no more nodes than a number that the instance and the bound give.
#[tactic(auto, using(crate::proofs::finite::TakenNodes::taken_are_bounded))]
pub fn taken_are_bounded()
    ensures { TakenAreBounded }
{}
