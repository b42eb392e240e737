//! Whether an agent may take a path, and whether a plan has a conflict: what is proposed by a guess is asked of these.

ghost use Rattle.std.specs.Prelude.{◌≡◌, ◌≢◌, ℕ, ◌+◌, ◌-◌, ◌<◌, length, IsFalse, IsTrue};
ghost use Rattle.mapf_grid.specs.Grid.{Next};
ghost use Rattle.mapf_low.specs.Constraints.{Obeys};
ghost use Rattle.mapf_plan.specs.Path.{at, cost, IsPath};
ghost use Rattle.mapf_plan.specs.Plan.{place, IsConflict};
ghost use Rattle.mapf_tree.specs.Tree.{IsAllowedFor};
ghost use Rattle.mapf_optimum.specs.FreeTree.{IsChoice};
ghost use Rattle.mapf_optimum.specs.Groups.{alone};

use crate::part::Part;
use mapf_grid::{Cell, Map};
use mapf_low::Constraints;
use mapf_plan::{Conflict, Path, Plan, Rule};
use mapf_tree::breaks;

/// Whether one of the part's agents may take this path under these constraints.
pub(crate) fn is_allowed(
    part: &Part<'_, '_>,
    agent: usize,
    constraints: &Constraints,
    path: &Path,
) -> bool
    requires { agent < length part.now.agents }
    ensures { IsTrue result → IsAllowedFor (alone part.now) agent constraints.now path.now }
{
    if path.cost() > part.bound() {
        return false;
    }
    leads(part.map(), path, part.start(agent), part.goal(agent)) && obeys(constraints, path)
}

/// Whether the path leads from start to goal by steps of the map, and doesn't wait on the goal at its end.
fn leads(map: &Map, path: &Path, start: Cell, goal: Cell) -> bool
    ensures { IsTrue result → IsPath map.now start goal path.now }
{
    // That a path has a cell is known from a call alone.
    let _cells = path.cells();
    if path.at(0) != start {
        return false;
    }
    if path.at(path.cost()) != goal {
        return false;
    }
    if waits_at_end(path, goal) {
        return false;
    }
    if !map.is_free(start) {
        return false;
    }
    goes_by_steps(map, path)
}

/// Whether the path is on the goal one time step before its end already.
fn waits_at_end(path: &Path, goal: Cell) -> bool
    ensures { IsFalse result → (t : ℕ) → t + 1 ≡ cost path.now → at path.now t ≢ goal }
{
    let cost = path.cost();
    if cost == 0 {
        return false;
    }
    path.at(cost - 1) == goal
}

/// Whether each step of the path is one of the map.
fn goes_by_steps(map: &Map, path: &Path) -> bool
    ensures { IsTrue result → (t : ℕ) → t < cost path.now → Next map.now (at path.now t) (at path.now (t + 1)) }
{
    for time in 0..path.cost() {
        if !map.is_step(path.at(time), path.at(time + 1)) {
            return false;
        }
    }
    true
}

/// Whether the path obeys all of these constraints.
fn obeys(constraints: &Constraints, path: &Path) -> bool
    ensures { IsTrue result → Obeys constraints.now path.now }
{
    for constraint in constraints.as_slice() {
        if breaks(path, constraint) {
            return false;
        }
    }
    true
}

/// Whether the plan has this conflict by the problem's rule, and up to its bound.
pub(crate) fn is_choice(part: &Part<'_, '_>, plan: &Plan, conflict: &Conflict) -> bool
    ensures { IsTrue result → IsChoice (alone part.now) plan.now conflict.now }
{
    conflict.time() <= part.bound() && has_conflict(part.rule(), plan, conflict)
}

/// Whether the plan has this conflict by the rule.
fn has_conflict(rule: Rule, plan: &Plan, conflict: &Conflict) -> bool
    ensures { IsTrue result → IsConflict rule plan.now conflict.now }
{
    match *conflict {
        Conflict::Vertex {
            time,
            first,
            second,
            cell,
        } => first < second && is_on(plan, first, time, cell) && is_on(plan, second, time, cell),
        Conflict::Swapping {
            time,
            first,
            second,
            from,
            to,
        } => {
            first < second
                && from != to
                && was_on(plan, first, time, from)
                && is_on(plan, first, time, to)
                && was_on(plan, second, time, to)
                && is_on(plan, second, time, from)
        }
        Conflict::Following {
            time,
            follower,
            leader,
            cell,
        } => {
            rule == Rule::NoFollowing
                && follower != leader
                && is_on(plan, follower, time, cell)
                && was_on(plan, leader, time, cell)
        }
    }
}

/// Whether there is such an agent, and its path is on the cell at this time step.
fn is_on(plan: &Plan, agent: usize, time: u32, cell: Cell) -> bool
    ensures inside { IsTrue result → agent < length plan.now }
    ensures there { IsTrue result → place plan.now agent time ≡ cell }
{
    agent < plan.paths().len() && plan.at(agent, time) == cell
}

/// Whether there is such an agent, and its path was on the cell one time step before.
fn was_on(plan: &Plan, agent: usize, time: u32, cell: Cell) -> bool
    ensures later { IsTrue result → 0 < time }
    ensures inside { IsTrue result → agent < length plan.now }
    ensures there { IsTrue result → place plan.now agent (time - 1) ≡ cell }
{
    time > 0 && is_on(plan, agent, time - 1, cell)
}
