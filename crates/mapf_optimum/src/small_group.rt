//! What a few agents cost together at least.

ghost use Rattle.std.specs.Prelude.{◌≡◌, ℕ, ◌<◌, length, slice_index, IfOk};
ghost use Rattle.mapf_optimum.specs.FreeTree.{HaveLeastPaths, IsFreeNode, IsGroup, IsLowerBoundOf, paths_in};
ghost use Rattle.mapf_optimum.specs.Groups.{AreKnown, alone, part_of};

use crate::FreeNode;
use crate::agents::{costs_of, sum_of};
use crate::group_costs::{Found, GroupCosts};
use crate::group_search::GroupSearch;
use crate::groups::ask;
use crate::guesses::Guide;
use crate::low_level::LowLevel;
use crate::part::Part;
use crate::together::MOST_TOGETHER;
use mapf_grid::NoMemory;
use mapf_low::Constraints;
use mapf_plan::{AgentPaths, Path, Plan};
use std::alloc::Global;

/// How many nodes of the agents are expanded, at most.
const MOST_NODES: u64 = 8;

/// With how much effort their plan is looked for.
const EFFORT: usize = 8;

impl<'p> GroupSearch<'p> {
    /// What some agents cost together at least under these sets, of which this plan has least paths. It is remembered.
    ///
    /// An error is that memory ran out.
    pub fn least_of<P: AgentPaths>(
        &mut self,
        alloc: Global,
        agents: &[usize],
        sets: Vec<Constraints>,
        plan: &P,
    ) -> Result<u64, NoMemory>
        requires group { IsGroup (length self.old.inst.starts) agents.now }
        requires some { 0 < length agents.now }
        requires plan { length (P.paths plan.now) ≡ length self.old.inst.starts }
        requires paths { HaveLeastPaths (part_of self.old agents.now) sets.items (paths_in (P.paths plan.now) agents.now) }
        ensures same { self.new ≡ self.old }
        ensures least { IfOk result (IsLowerBoundOf (part_of self.old agents.now) sets.items) }
    {
        least_of_group(
            alloc,
            &self.low,
            agents,
            sets,
            plan,
            &mut self.known,
            &mut self.guide,
        )
    }
}

/// The same of agents by what is known of groups.
fn least_of_group<P: AgentPaths>(
    alloc: Global,
    low: &LowLevel<'_>,
    agents: &[usize],
    sets: Vec<Constraints>,
    plan: &P,
    known: &mut GroupCosts,
    guide: &mut Guide,
) -> Result<u64, NoMemory>
    requires group { IsGroup (length low.now.inst.starts) agents.now }
    requires some { 0 < length agents.now }
    requires plan { length (P.paths plan.now) ≡ length low.now.inst.starts }
    requires paths { HaveLeastPaths (part_of low.now agents.now) sets.items (paths_in (P.paths plan.now) agents.now) }
    requires known { AreKnown low.now known.old }
    ensures known { AreKnown low.now known.new }
    ensures least { IfOk result (IsLowerBoundOf (part_of low.now agents.now) sets.items) }
{
    let part = Part::of(low, Vec::from_slice(alloc, agents)?);
    if let Some(least) = known.least(&part, &sets, EFFORT) {
        return Ok(least);
    }
    // That a problem has at most 1,000 agents is known from a call alone.
    let _count = plan.agents();
    let paths = paths_of(alloc, plan, agents)?;
    let costs = costs_of(alloc, &paths)?;
    let sum = sum_of(&costs);
    // How many sets there are, the contract doesn't say.
    if sum > u64::from(low.bound()) || sets.len() != agents.len() {
        return Ok(sum);
    }
    let node = FreeNode::new(alloc, sets, costs, Plan::of(paths));
    let found = find(alloc, &part, node, known, guide)?;
    Ok(found.least)
}

/// Copies of these agents' paths.
fn paths_of<P: AgentPaths>(alloc: Global, plan: &P, agents: &[usize]) -> Result<Vec<Path>, NoMemory>
    requires { (k : ℕ) → k < length agents.now → slice_index agents.now k < length (P.paths plan.now) }
    ensures { IfOk result (λ paths. paths.items ≡ paths_in (P.paths plan.now) agents.now) }
{
    let mut paths = Vec::new(alloc);
    for agent in agents {
        paths.push(plan.path(*agent).copy(alloc)?)?;
    }
    Ok(paths)
}

/// What the candidates of a node cost at least, and one that costs so much, if it is found: by all joint places, where the agents are few
/// and that was not in vain before, or else by a search.
fn find(
    alloc: Global,
    part: &Part<'_, '_>,
    node: FreeNode,
    known: &mut GroupCosts,
    guide: &mut Guide,
) -> Result<Found, NoMemory>
    requires node { IsFreeNode (alone part.now) node }
    requires known { AreKnown part.now.problem known.old }
    ensures known { AreKnown part.now.problem known.new }
    ensures least { IfOk result (λ found. IsLowerBoundOf (alone part.now) node.sets found.least) }
{
    let least = known.least_under_fewer(part, node.sets());
    let raised = node.raised(part, least);
    if part.agents().len() <= MOST_TOGETHER && guide.failures_of(part.agents()) == 0 {
        let found = raised.cost_together(alloc, part, raised.joint_budget())?;
        known.learn(alloc, part, raised.sets(), &found, 0)?;
        if found.plan.is_some() {
            return Ok(found);
        }
        guide.add_failure(part.agents())?;
    }
    guide.left = MOST_NODES;
    let found = ask(alloc, part, raised, EFFORT, known, guide)?;
    for agent in part.agents() {
        guide.occupancy.take(*agent);
    }
    Ok(found)
}
