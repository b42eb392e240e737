//! The label of a node, from its groups.

ghost use Rattle.std.specs.Prelude.{◌≡◌, ◌≤◌, true, length, IfOk};
ghost use Rattle.mapf_plan.specs.Plan.{plan_cost};
ghost use Rattle.mapf_optimum.specs.FreeTree.{IsFreeNode};
ghost use Rattle.mapf_optimum.specs.FreeSearch.{IsBounded, IsSame};
ghost use Rattle.mapf_optimum.specs.Groups.{AreGroups, IsBoundBy, alone};

use super::FreeNode;
use crate::agents::copy_paths;
use crate::group_bound::least_of_groups;
use crate::guesses::{Occupancy, colliding_pairs, conflicts_again};
use crate::other_paths::take_least_paths;
use crate::part::Part;
use mapf_grid::NoMemory;
use mapf_plan::Plan;
use std::alloc::Global;

impl FreeNode {
    /// The node with the label that its groups give; none where that is over the bound.
    pub(crate) fn finished(
        self,
        alloc: Global,
        part: &Part<'_, '_>,
        occupancy: &mut Occupancy,
    ) -> Result<Option<FreeNode>, NoMemory>
        requires { IsFreeNode (alone part.now) self }
        ensures { IfOk result (IsBounded (alone part.now) self) }
    {
        let least = self.least(alloc)?;
        if least > u64::from(part.bound()) {
            return Ok(None);
        }
        let node = self.raised(part, least);
        Ok(Some(node.bounded(alloc, part, occupancy)?))
    }

    /// What each valid plan costs at least that obeys the sets, by what least paths and groups cost.
    pub(super) fn least(&self, alloc: Global) -> Result<u64, NoMemory>
        requires { AreGroups (length self.now.costs) self.now.groups }
        ensures { IfOk result (IsBoundBy self.now.costs self.now.groups) }
    {
        least_of_groups(alloc, &self.costs, &self.groups)
    }

    /// The node whose label was found from its groups: where its plan costs more than the label, it shows least paths instead.
    fn bounded(
        self,
        alloc: Global,
        part: &Part<'_, '_>,
        occupancy: &mut Occupancy,
    ) -> Result<FreeNode, NoMemory>
        requires { IsFreeNode (alone part.now) self }
        ensures same { IfOk result (IsSame (alone part.now) self) }
        ensures bounded { IfOk result (λ node. node.is_bounded ≡ true) }
    {
        let mut node = self;
        if node.plan.cost() > node.label {
            node = node.with_least_paths(alloc, part, occupancy)?;
        }
        node.collisions = colliding_pairs(&node.conflicts);
        node.changed = None;
        node.is_known = false;
        node.hints = Vec::new(alloc);
        node.is_bounded = true;
        Ok(node)
    }

    /// The node that shows least paths.
    fn with_least_paths(
        self,
        alloc: Global,
        part: &Part<'_, '_>,
        occupancy: &mut Occupancy,
    ) -> Result<FreeNode, NoMemory>
        requires { IsFreeNode (alone part.now) self }
        ensures same { IfOk result (IsSame (alone part.now) self) }
        ensures label { IfOk result (λ node. node.label ≡ self.label) }
        ensures least { IfOk result (λ node. plan_cost node.plan ≤ node.label) }
    {
        let mut paths = copy_paths(alloc, self.plan.paths())?;
        let new = take_least_paths(alloc, part, &self.sets, &self.costs, &mut paths)?;
        let conflicts = conflicts_again(alloc, part, &new, &paths, &self.conflicts, occupancy)?;
        let mut node = self;
        node.plan = Plan::of(paths);
        node.conflicts = conflicts;
        node.is_bounded = false;
        Ok(node)
    }
}
