//! The nodes of a search that may branch on any conflict.

ghost use Rattle.std.specs.Prelude.{◌≡◌, ◌≤◌, length, IfOk, MatchOption};
ghost use Rattle.mapf_grid.specs.declared.instance.TheConstants.{MOST_AGENTS};
ghost use Rattle.mapf_plan.specs.Plan.{HasNoConflict};
ghost use Rattle.mapf_tree.specs.Family.{AreRootPaths};
ghost use Rattle.mapf_optimum.specs.FreeTree.{IsChoice, IsFreeNode, IsLowerBoundOf};
ghost use Rattle.mapf_optimum.specs.FreeSearch.{IsFreshNode, IsRootOf, IsSame};
ghost use Rattle.mapf_optimum.specs.Groups.{alone};

mod grouped;
mod labels;
mod order;
mod sides;

use crate::agents::{costs_of, empty_sets, sum_of};
use crate::group_bound::GroupBound;
use crate::guesses::{KnownCosts, branching_conflict};
use crate::part::Part;
use mapf_grid::NoMemory;
use mapf_low::Constraints;
use mapf_plan::{Conflict, Path, Plan};
use mapf_tree::Problem;
use std::alloc::Global;
use std::marker::Model;

/// Each agent's set of constraints, a plan of paths that obey them, and a label: what each valid plan that obeys the sets costs at least.
pub struct FreeNode {
    sets: Vec<Constraints>,
    /// What a least path of each agent costs.
    costs: Vec<u32>,
    /// The plan that is shown: its conflicts are branched on, and without conflict it is an optimum.
    plan: Plan,
    /// What groups cost together at least, of those of which it is known.
    groups: Vec<GroupBound>,
    label: u64,
    /// How many pairs of agents collide in the plan.
    collisions: usize,
    /// Whether the label was found from the groups.
    is_bounded: bool,
    /// The conflicts of the plan that were found then; before, those that it has in common with its parent.
    conflicts: Vec<Conflict>,
    /// Whose set has one constraint more than the parent's.
    changed: Option<usize>,
    /// Whether all conflicts of the plan are known, and none changed.
    is_known: bool,
    /// Groups whose plans were shown, of which nothing is known yet.
    hints: Vec<Vec<usize>>,
}

// By hand, so that a proof about what holds one sees a call where it is dropped, and not its fields.
impl Drop for FreeNode {
    fn drop(self) {
        let FreeNode {
            sets: _,
            costs: _,
            plan: _,
            groups: _,
            label: _,
            collisions: _,
            is_bounded: _,
            conflicts: _,
            changed: _,
            is_known: _,
            hints: _,
        } = self;
    }
}

impl Model for FreeNode {
    ghost use Rattle.mapf_optimum.specs.FreeTree.{FreeNode};

    ghost Value = { FreeNode };

    ghost view = { λ n. record {
      sets = n.sets.items;
      costs = n.costs.items;
      plan = n.plan;
      groups = n.groups.items;
      label = n.label;
      collisions = n.collisions;
      is_bounded = n.is_bounded;
    } };
}

impl FreeNode {
    /// The node without constraints, from each agent's own path; none where these cost more than the bound.
    pub(crate) fn root(
        alloc: Global,
        problem: &Problem,
        paths: Vec<Path>,
    ) -> Result<Option<FreeNode>, NoMemory>
        requires { AreRootPaths problem.now paths.items }
        ensures { IfOk result (IsRootOf problem.now) }
    {
        // An instance has one agent at least, and at most 1,000.
        let agents = problem.instance().agents();
        let costs = costs_of(alloc, &paths)?;
        let plan = Plan::of(paths);
        if plan.cost() > u64::from(problem.bound()) {
            return Ok(None);
        }
        let sets = empty_sets(alloc, agents)?;
        Ok(Some(FreeNode::new(alloc, sets, costs, plan)))
    }

    /// A node of these sets and this plan, whose label is what least paths cost: nothing else is known.
    pub(crate) fn new(
        alloc: Global,
        sets: Vec<Constraints>,
        costs: Vec<u32>,
        plan: Plan,
    ) -> FreeNode
        requires { length costs.items ≤ MOST_AGENTS }
        ensures { IsFreshNode sets.items costs.items plan result }
    {
        let label = sum_of(&costs);
        FreeNode {
            sets,
            costs,
            plan,
            groups: Vec::new(alloc),
            label,
            collisions: 0,
            is_bounded: false,
            conflicts: Vec::new(alloc),
            changed: None,
            is_known: false,
            hints: Vec::new(alloc),
        }
    }

    /// A conflict of the plan, any one up to the bound; none where the plan has no conflict.
    pub(crate) fn choice(
        &self,
        alloc: Global,
        part: &Part<'_, '_>,
        costs: &mut KnownCosts,
    ) -> Result<Option<Conflict>, NoMemory>
        requires { IsFreeNode (alone part.now) self.now }
        ensures { IfOk result (λ found.
            MatchOption found (HasNoConflict (alone part.now).rule self.now.plan) (IsChoice (alone part.now) self.now.plan)) }
    {
        let guess = branching_conflict(
            alloc,
            part,
            &self.sets,
            &self.costs,
            &self.plan,
            &self.conflicts,
            costs,
        )?;
        match guess {
            Some(conflict) => Ok(Some(conflict)),
            None => Ok(self.first_conflict(part)),
        }
    }

    /// The first conflict of the plan.
    fn first_conflict(&self, part: &Part<'_, '_>) -> Option<Conflict>
        requires { IsFreeNode (alone part.now) self.now }
        ensures { MatchOption result (HasNoConflict (alone part.now).rule self.now.plan) (IsChoice (alone part.now) self.now.plan) }
    {
        self.plan.first_conflict_by(part.rule())
    }

    /// What each valid plan costs at least that obeys the sets.
    pub(crate) fn label(&self) -> u64
        ensures { result ≡ self.now.label }
    {
        self.label
    }

    /// Whether the label was found from the groups.
    pub(crate) fn is_bounded(&self) -> bool
        ensures { result ≡ self.now.is_bounded }
    {
        self.is_bounded
    }

    /// Each agent's set.
    pub(crate) fn sets(&self) -> &[Constraints]
        ensures { result.now ≡ self.now.sets }
    {
        &self.sets
    }

    /// The plan.
    pub(crate) fn into_plan(self) -> Plan
        ensures { result ≡ self.plan }
    {
        let FreeNode {
            sets: _,
            costs: _,
            plan,
            groups: _,
            label: _,
            collisions: _,
            is_bounded: _,
            conflicts: _,
            changed: _,
            is_known: _,
            hints: _,
        } = self;
        plan
    }

    /// The node with this label, where it is greater than its own and within the bound.
    pub(crate) fn raised(self, part: &Part<'_, '_>, least: u64) -> FreeNode
        requires node { IsFreeNode (alone part.now) self }
        requires below { IsLowerBoundOf (alone part.now) self.sets least }
        ensures { IsSame (alone part.now) self result }
    {
        let mut node = self;
        node.label = node.label.max(least.min(u64::from(part.bound())));
        node
    }
}
