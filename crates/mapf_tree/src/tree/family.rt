//! The members of the constraint tree: its root, and the children of a node.

ghost use Rattle.std.specs.Prelude.{◌<◌, ◌≤◌, [], length, IfOk, None, MatchOption};
ghost use Rattle.mapf_tree.specs.Prelude.{MOST_BOUND, IsQueryOf, AreRootPaths, IsBranching, IsChildOf, IsOwn, IsOwnWithin, IsRoot};

use crate::{Node, Problem, Side, SideQuery};
use mapf_grid::NoMemory;
use mapf_low::{Constraints, cheapest};
use mapf_plan::{Path, Plan};
use std::alloc::Global;

/// The root: no constraint, and every agent's own path; none exactly where that isn't in the tree.
pub fn root(alloc: Global, problem: &Problem) -> Result<Option<Node>, NoMemory>
    ensures { IfOk result (IsRoot problem.now) }
{
    match root_paths(alloc, problem)? {
        Some(paths) => root_with(alloc, problem, paths),
        None => Ok(None),
    }
}

/// The root, from each agent's own path under no constraints; none exactly where it isn't in the tree.
pub fn root_with(
    alloc: Global,
    problem: &Problem,
    paths: Vec<Path>,
) -> Result<Option<Node>, NoMemory>
    requires { AreRootPaths problem.now paths.items }
    ensures { IfOk result (IsRoot problem.now) }
{
    // An instance has one agent at least, and at most 1,000.
    let _agents = problem.instance().agents();
    let plan = Plan::of(paths);
    if plan.cost() > u64::from(problem.bound()) {
        return Ok(None);
    }
    Ok(Some(Node::root(alloc, plan, problem.rule())?))
}

/// The child of a node of the tree on one side of its conflict; none exactly where that isn't in the tree.
pub fn child(
    alloc: Global,
    problem: &Problem,
    node: &Node,
    side: Side,
) -> Result<Option<Node>, NoMemory>
    requires { IsBranching problem.now node.now }
    ensures { IfOk result (IsChildOf problem.now node.now side) }
{
    let query = SideQuery::of(alloc, problem, node, side)?;
    child_with(alloc, node, &query)
}

/// The child of a node of the tree on the side that a query is of; none exactly where it isn't in the tree.
pub fn child_with(
    alloc: Global,
    node: &Node,
    query: &SideQuery<'_>,
) -> Result<Option<Node>, NoMemory>
    requires node { IsBranching query.now.problem node.now }
    requires query { IsQueryOf node.now query.now }
    ensures { IfOk result (IsChildOf query.now.problem node.now query.now.side) }
{
    query.child(alloc, node, query.own_path(alloc)?, 0)
}

/// An agent's own path under no constraints; none exactly where it may take no path.
pub fn root_path(alloc: Global, problem: &Problem, agent: usize) -> Result<Option<Path>, NoMemory>
    requires { agent < length problem.now.inst.starts }
    ensures { IfOk result (IsOwn problem.now agent []) }
{
    let free = Constraints::new(alloc);
    own_path(alloc, problem, agent, &free, problem.bound())
}

/// Each agent's own path under no constraints, agent 0's first; none where an agent has none, so that the root isn't in the tree.
pub fn root_paths(alloc: Global, problem: &Problem) -> Result<Option<Vec<Path>>, NoMemory>
    ensures { IfOk result (λ found.
        MatchOption found (IsRoot problem.now None) (λ paths. AreRootPaths problem.now paths.items)) }
{
    let agents = problem.instance().agents();
    let mut paths = Vec::with_capacity(alloc, agents)?;
    for agent in 0..agents {
        let Some(path) = root_path(alloc, problem, agent)? else {
            return Ok(None);
        };
        paths.push_reserved(path);
    }
    Ok(Some(paths))
}

/// An agent's own path under these constraints, at a cost of at most the bound.
pub fn own_path(
    alloc: Global,
    problem: &Problem,
    agent: usize,
    constraints: &Constraints,
    bound: u32,
) -> Result<Option<Path>, NoMemory>
    requires agent { agent < length problem.now.inst.starts }
    requires small { bound ≤ MOST_BOUND }
    ensures { IfOk result (IsOwnWithin problem.now bound agent constraints.now) }
{
    let instance = problem.instance();
    cheapest(
        alloc,
        instance.map(),
        problem.distances(agent),
        instance.start(agent),
        instance.goal(agent),
        constraints,
        bound,
    )
}
