//! What holds of bounds on solutions, and of a search by bounds: functions that do nothing, each with one law as its contract.

ghost use Rattle.mapf_bounds.specs.Laws.{SolutionsObey, PlansBoundCost, OwnAreBounds, BoundsPassDown, CollisionsTakeTurns, WaitingCover, StillCovers, ValidPlanIsEnough, LeastIsFirst};

/// A solution at or below a node obeys the node's constraints.
#[tactic(auto, using(crate::proofs::Subtrees::solutions_obey))]
pub fn solutions_obey()
    ensures { SolutionsObey }
{}

/// What each valid plan costs at least that obeys a node is a bound on the cost of all solutions at or below it.
pub fn plans_bound_cost()
    ensures { PlansBoundCost }
{}

/// A node's own cost and depth are bounds on those of all solutions at or below it.
#[tactic(auto, using(crate::proofs::Subtrees::own_are_bounds))]
pub fn own_are_bounds()
    ensures { OwnAreBounds }
{}

/// Bounds of a node are bounds of each node below it.
pub fn bounds_pass_down()
    ensures { BoundsPassDown }
{}

/// Disjoint pairs that collide in a node's plan take a turn each.
pub fn collisions_take_turns()
    ensures { CollisionsTakeTurns }
{}

/// The nodes that wait in a search by keys without an answer cover all solutions.
pub fn waiting_cover()
    ensures { WaitingCover }
{}

/// What waits still covers all solutions once a node with a conflict is expanded.
pub fn still_covers()
    ensures { StillCovers }
{}

/// What a valid plan costs is enough: some solution costs no more.
#[tactic(auto, using(crate::proofs::Covers::valid_plan_is_enough))]
pub fn valid_plan_is_enough()
    ensures { ValidPlanIsEnough }
{}

/// The least by bounds of nodes that cover all solutions is the first solution, if its plan has no conflict.
pub fn least_is_first()
    ensures { LeastIsFirst }
{}
