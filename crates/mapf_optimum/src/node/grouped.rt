//! Nodes whose agents are asked for in groups.

ghost use Rattle.std.specs.Prelude.{◌<◌, ◌≤◌, length, IfOk, IfSome};
ghost use Rattle.mapf_optimum.specs.FreeTree.{HaveAllowedPaths, IsFreeNode, IsGroup, IsGroupBound, IsLowerBoundOf, paths_in};
ghost use Rattle.mapf_optimum.specs.FreeSearch.{IsFreshNode, IsSame};
ghost use Rattle.mapf_optimum.specs.Groups.{alone, costs_in, sets_in};

use super::FreeNode;
use crate::agents::{copy_paths, some_costs, some_paths, some_sets};
use crate::group_bound::{GroupBound, are_group, groups_without};
use crate::group_costs::Found;
use crate::guesses::{Occupancy, conflicts_again, conflicts_among, hints_in, next_group};
use crate::other_paths::adopt;
use crate::part::Part;
use crate::settling::{settle, settle_each, settle_partners};
use crate::together::{MOST_TOGETHER, cost_together};
use mapf_grid::NoMemory;
use mapf_plan::{Conflict, Path, Plan};
use std::alloc::Global;

/// From how many joint places agents go on for each place of their paths, at most, where they are looked at together.
const JOINT_PLACES: usize = 60;

impl FreeNode {
    /// The node whose agents take other paths of the same costs, with few conflicts.
    pub(crate) fn settled(
        self,
        alloc: Global,
        part: &Part<'_, '_>,
        occupancy: &mut Occupancy,
    ) -> Result<FreeNode, NoMemory>
        requires { IsFreeNode (alone part.now) self }
        ensures { IfOk result (IsSame (alone part.now) self) }
    {
        let mut paths = copy_paths(alloc, self.plan.paths())?;
        let mut conflicts = Vec::from_slice(alloc, &self.conflicts)?;
        settle(
            alloc,
            part,
            &self.sets,
            &mut paths,
            &self.groups,
            self.changed,
            self.is_known,
            &mut conflicts,
            occupancy,
        )?;
        Ok(self.showing(part, paths, conflicts))
    }

    /// The node with this plan, which has these conflicts.
    fn showing(self, part: &Part<'_, '_>, paths: Vec<Path>, conflicts: Vec<Conflict>) -> FreeNode
        requires node { IsFreeNode (alone part.now) self }
        requires paths { HaveAllowedPaths (alone part.now) self.sets paths.items }
        ensures same { IsSame (alone part.now) self result }
    {
        // That a plan has an agent, and at most 1,000, is known from a call alone.
        let _paths = self.plan.paths();
        let mut node = self;
        node.plan = Plan::of(paths);
        node.conflicts = conflicts;
        node.is_bounded = false;
        node
    }

    /// The node, whose plan has no conflict, with other paths of the same costs that have few with other agents.
    pub(crate) fn among_others(
        self,
        alloc: Global,
        part: &Part<'_, '_>,
        occupancy: &mut Occupancy,
    ) -> Result<FreeNode, NoMemory>
        requires { IsFreeNode (alone part.now) self }
        ensures { IfOk result (IsSame (alone part.now) self) }
    {
        let mut paths = copy_paths(alloc, self.plan.paths())?;
        let mut conflicts = Vec::new(alloc);
        settle_each(
            alloc,
            part,
            &self.sets,
            &mut paths,
            &mut conflicts,
            occupancy,
        )?;
        Ok(self.showing(part, paths, conflicts))
    }

    /// Some of its agents by themselves: nothing but their sets, their paths, and what least ones cost is known.
    pub(crate) fn part(
        &self,
        alloc: Global,
        part: &Part<'_, '_>,
        agents: &[usize],
    ) -> Result<FreeNode, NoMemory>
        requires node { IsFreeNode (alone part.now) self.now }
        requires some { 0 < length agents.now }
        requires few { length agents.now ≤ length (alone part.now).inst.starts }
        requires group { IsGroup (length (alone part.now).inst.starts) agents.now }
        ensures { IfOk result (IsFreshNode (sets_in self.now.sets agents.now) (costs_in self.now.costs agents.now)
            (paths_in self.now.plan agents.now)) }
    {
        let sets = some_sets(alloc, &self.sets, agents)?;
        let costs = some_costs(alloc, &self.costs, agents)?;
        let paths = some_paths(alloc, self.plan.paths(), agents)?;
        let mut node = FreeNode::new(alloc, sets, costs, Plan::of(paths));
        node.hints = hints_in(alloc, &self.groups, agents)?;
        node.conflicts = conflicts_among(alloc, &self.conflicts, agents)?;
        node.is_known = true;
        Ok(node)
    }

    /// The agents that are asked for next, if there are some that were not in vain before.
    pub(crate) fn next_group(
        &self,
        alloc: Global,
        vain: &[Vec<usize>],
    ) -> Result<Option<Vec<usize>>, NoMemory>
        ensures some { IfOk result (λ found. IfSome found (λ agents. 0 < length agents.items)) }
        ensures few { IfOk result (λ found. IfSome found (λ agents. length agents.items < length self.now.sets)) }
        ensures group { IfOk result (λ found. IfSome found (λ agents. IsGroup (length self.now.sets) agents.items)) }
    {
        let count = self.sets.len();
        let guess = next_group(
            alloc,
            &self.hints,
            &self.groups,
            &self.conflicts,
            count,
            vain,
        )?;
        let Some(agents) = guess else {
            return Ok(None);
        };
        if agents.is_empty() || agents.len() >= count || !are_group(&agents, count) {
            return Ok(None);
        }
        Ok(Some(agents))
    }

    /// The node with what was found of a group, and whether its plan is shown then.
    pub(crate) fn with_group(
        self,
        alloc: Global,
        part: &Part<'_, '_>,
        agents: &[usize],
        found: Found,
        occupancy: &mut Occupancy,
    ) -> Result<(FreeNode, bool), NoMemory>
        requires node { IsFreeNode (alone part.now) self }
        requires group { IsGroupBound (alone part.now) self.sets agents.now found.least }
        ensures { IfOk result (λ next. IsSame (alone part.now) self next.0) }
    {
        let mut paths = copy_paths(alloc, self.plan.paths())?;
        let is_solved = adopt(part, &self.sets, agents, found.plan, &mut paths);
        let mut groups = groups_without(alloc, &self.groups, agents, is_solved)?;
        groups.push(GroupBound::of(alloc, agents, found.least, is_solved)?)?;
        let mut conflicts = conflicts_again(
            alloc,
            part,
            agents,
            &paths,
            &self.conflicts,
            occupancy,
        )?;
        if is_solved {
            settle_partners(
                alloc,
                part,
                &self.sets,
                &mut paths,
                &groups,
                Vec::from_slice(alloc, agents)?,
                &mut conflicts,
                occupancy,
            )?;
        }
        let mut node = self.showing(part, paths, conflicts);
        node.groups = groups;
        Ok((node, is_solved))
    }

    /// From how many joint places its agents go on, at most, where they are looked at together.
    pub(crate) fn joint_budget(&self) -> usize {
        let mut budget = 0_usize;
        for path in self.plan.paths() {
            budget = budget.saturating_add(path.cells().len());
        }
        budget.saturating_mul(JOINT_PLACES)
    }

    /// What its agents, which are few, cost together at least, and a plan that costs so much, if it is found by looking at so many joint
    /// places.
    pub(crate) fn cost_together(
        &self,
        alloc: Global,
        part: &Part<'_, '_>,
        budget: usize,
    ) -> Result<Found, NoMemory>
        requires node { IsFreeNode (alone part.now) self.now }
        requires few { length self.now.sets ≤ MOST_TOGETHER }
        ensures { IfOk result (λ found. IsLowerBoundOf (alone part.now) self.now.sets found.least) }
    {
        let mut agents = Vec::new(alloc);
        for agent in 0..self.sets.len() {
            agents.push(part.agent(agent, &self.sets[agent], self.costs[agent]))?;
        }
        cost_together(
            alloc,
            part.rule(),
            &agents,
            self.label,
            part.bound(),
            budget,
        )
    }
}
