//! The nodes on the sides of a conflict.

ghost use Rattle.std.specs.Prelude.{◌≡◌, ◌<◌, ◌≤◌, false, length, max, sum_by, IfOk, slice_set};
ghost use Rattle.mapf_plan.specs.Path.{cost};
ghost use Rattle.mapf_plan.specs.declared.answer.TheConstants.{MOST_BOUND};
ghost use Rattle.mapf_optimum.specs.FreeTree.{IsChoice, IsFreeNode};
ghost use Rattle.mapf_optimum.specs.FreeSearch.{IsLeftFor, IsSideOf};
ghost use Rattle.mapf_optimum.specs.Groups.{AreOf, alone};

use super::FreeNode;
use crate::agents::{copy_paths, copy_sets, costs_with, sum_of};
use crate::group_bound::{solved_with, unsolved_with};
use crate::guesses::conflicts_without;
use crate::part::Part;
use mapf_grid::NoMemory;
use mapf_low::Constraints;
use mapf_plan::{Conflict, Path, Plan};
use mapf_tree::{Side, agent_of, constraint_of, left_of_bound};
use std::alloc::Global;

impl FreeNode {
    /// The node on this side of a conflict of its plan; none where that has no candidate.
    pub(crate) fn side(
        &self,
        alloc: Global,
        part: &Part<'_, '_>,
        conflict: &Conflict,
        side: Side,
    ) -> Result<Option<FreeNode>, NoMemory>
        requires node { IsFreeNode (alone part.now) self.now }
        requires choice { IsChoice (alone part.now) self.now.plan conflict.now }
        ensures { IfOk result (IsSideOf (alone part.now) self.now conflict.now side) }
    {
        let agent = agent_of(conflict, side);
        let set = self.sets[agent].with(constraint_of(conflict, side))?;
        let bound = self.left_for(part, agent);
        let Some(path) = part.least_path(alloc, agent, &set, bound, self.costs[agent])? else {
            return Ok(None);
        };
        let child = self.child(alloc, agent, set, path)?;
        let least = child.least(alloc)?;
        Ok(Some(child.raised(part, least)))
    }

    /// The node where this agent has another set, and another path.
    fn child(
        &self,
        alloc: Global,
        agent: usize,
        set: Constraints,
        path: Path,
    ) -> Result<FreeNode, NoMemory>
        requires set { agent < length self.now.sets }
        requires cost { agent < length self.now.costs }
        requires agents { length self.now.costs ≡ length self.now.plan }
        requires path { agent < length self.now.plan }
        ensures sets { IfOk result (λ child. child.sets ≡ slice_set self.now.sets agent set) }
        ensures costs { IfOk result (λ child. child.costs ≡ slice_set self.now.costs agent (cost path)) }
        ensures plan { IfOk result (λ child. child.plan ≡ slice_set self.now.plan agent path) }
        ensures groups { IfOk result (λ child. AreOf self.now.groups child.groups) }
        ensures label { IfOk result (λ child. child.label ≡ max self.now.label (sum_by (λ c. c) child.costs)) }
        ensures fresh { IfOk result (λ child. child.is_bounded ≡ false) }
    {
        let costs = costs_with(alloc, &self.costs, agent, path.cost())?;
        let mut paths = copy_paths(alloc, self.plan.paths())?;
        paths[agent] = path;
        let mut sets = copy_sets(alloc, &self.sets)?;
        sets[agent] = set;
        let label = self.label.max(sum_of(&costs));
        Ok(FreeNode {
            sets,
            costs,
            plan: Plan::of(paths),
            groups: unsolved_with(alloc, &self.groups, agent)?,
            label,
            collisions: self.collisions,
            is_bounded: false,
            conflicts: conflicts_without(alloc, &self.conflicts, agent)?,
            changed: Some(agent),
            is_known: false,
            hints: solved_with(alloc, &self.groups, agent)?,
        })
    }

    /// What the other agents' least paths leave of the bound.
    fn left_for(&self, part: &Part<'_, '_>, agent: usize) -> u32
        requires node { IsFreeNode (alone part.now) self.now }
        requires agent { agent < length self.now.costs }
        ensures left { IsLeftFor (alone part.now) self.now.costs agent result }
        ensures small { result ≤ MOST_BOUND }
    {
        // That there are at most 1,000 agents is known from a call alone.
        let _paths = self.plan.paths();
        left_of_bound(part.bound(), sum_of(&self.costs), self.costs[agent])
    }
}
