//! The bound of a node, from groups of its agents.

ghost use Rattle.std.specs.Prelude.{◌≡◌, ◌<◌, length, IfOk, IsTrue};
ghost use Rattle.mapf_tree.specs.Family.{IsBranching};
ghost use Rattle.mapf_optimum.specs.FreeTree.{IsGroup, IsGroupBound};
ghost use Rattle.mapf_bounds.specs.Bounds.{IsBoundOf};
ghost use Rattle.mapf_bounds.specs.Groups.{AreKnownAt};
ghost use Rattle.mapf_bounds.specs.Waiting.{HoldsNone};

use crate::LowerBound;
use crate::collisions::disjoint_collisions;
use crate::node_groups::{costs_of, is_changed, sets_of, two_of, with_new};
use crate::node_tests::NodeTests;
use crate::waiting::Stage;
use mapf_grid::NoMemory;
use mapf_optimum::{GroupBound, GroupSearch, least_of_groups};
use mapf_plan::PairConflict;
use mapf_tree::{CurrentPaths, Node, OwnPaths, Problem};
use std::alloc::Global;
use std::marker::Model;
use std::sync::Arc;

/// Where the bounds of a problem's nodes are from.
pub(crate) struct NodeBounds<'p> {
    alloc: Global,
    groups: GroupSearch<'p>,
    tests: NodeTests,
    /// Solutions that cost more aren't looked for.
    most: u64,
}

// By hand, so that a proof about what holds one sees a call where it is dropped, and not its fields.
impl<'p> Drop for NodeBounds<'p> {
    fn drop(self) {
        let NodeBounds {
            alloc: _,
            groups: _,
            tests: _,
            most: _,
        } = self;
    }
}

impl<'p> Model for NodeBounds<'p> {
    ghost use Rattle.mapf_bounds.specs.Bounds.{Bounding};

    ghost Value = { Bounding };

    ghost view = { λ b. record { problem = b.groups; most = b.most } };
}

/// A node's bound, and what groups of its agents cost together at least.
#[derive(Drop)]
pub(crate) struct NodeBound {
    pub(crate) bound: LowerBound,
    pub(crate) groups: Arc<Vec<GroupBound>>,
}

impl<'p> NodeBounds<'p> {
    /// By what is known of groups.
    pub(crate) fn new(alloc: Global, groups: GroupSearch<'p>, most: u64) -> NodeBounds<'p>
        ensures { result ≡ record { problem = groups.entry; most = most } }
    {
        NodeBounds {
            alloc,
            groups,
            tests: NodeTests::new(alloc),
            most,
        }
    }

    /// Where memory is from.
    pub(crate) fn alloc(&self) -> Global {
        self.alloc
    }

    /// The problem.
    pub(crate) fn problem(&self) -> &'p Problem
        ensures { result.now ≡ self.now.problem }
    {
        self.groups.problem()
    }

    /// What a solution costs at most that is looked for.
    pub(crate) fn most(&self) -> u64
        ensures { result ≡ self.now.most }
    {
        self.most
    }

    /// Whether it was found that no solution at or below a node that costs at least so much is one that is looked for.
    pub(crate) fn hold_none(
        &mut self,
        paths: &mut OwnPaths<'_>,
        node: &Node,
        cost: u64,
    ) -> Result<bool, NoMemory>
        requires paths { paths.old ≡ self.old.problem }
        requires node { IsBranching self.old.problem node.now }
        ensures same { self.new ≡ self.old }
        ensures paths { paths.new ≡ paths.old }
        ensures none { IfOk result (λ found. IsTrue found → HoldsNone self.old.problem node.now self.old.most) }
    {
        if cost < self.most || self.most > u64::from(self.problem().bound()) {
            return Ok(false);
        }
        self.tests.hold_none(paths, node, self.most as u32)
    }

    /// A bound of a node of the tree, from one that is known and what is known of groups of its agents.
    pub(crate) fn of(
        &mut self,
        paths: &mut OwnPaths<'_>,
        node: &Node,
        stage: Stage,
        known: LowerBound,
        groups: &Arc<Vec<GroupBound>>,
    ) -> Result<NodeBound, NoMemory>
        requires paths { paths.old ≡ self.old.problem }
        requires node { IsBranching self.old.problem node.now }
        requires known { IsBoundOf self.old.problem node.now known }
        requires groups { AreKnownAt self.old.problem node.now groups.now.value.items }
        ensures same { self.new ≡ self.old }
        ensures paths { paths.new ≡ paths.old }
        ensures bound { IfOk result (λ found. IsBoundOf self.old.problem node.now found.bound) }
        ensures groups { IfOk result (λ found. AreKnownAt self.old.problem node.now found.groups.value.items) }
    {
        let conflicts = paths.pair_conflicts(node)?;
        let current = node.paths(self.alloc)?;
        let turns = disjoint_collisions(self.alloc, self.problem().rule(), &current, &conflicts)?;
        let costs = costs_of(self.alloc, &current)?;
        let new = self.new_groups(node, &current, &costs, stage, &conflicts)?;
        let groups = with_new(self.alloc, groups, new, &costs)?;
        let least = least_of_groups(self.alloc, &costs, &groups)?;
        let bound = LowerBound {
            cost: known.cost.max(least),
            depth: LowerBound::own(node).depth.saturating_add(turns),
        };
        Ok(NodeBound { bound, groups })
    }

    /// The dear ones of those pairs that collide, and of which one agent has another path than at the parent.
    fn new_groups(
        &mut self,
        node: &Node,
        current: &CurrentPaths<'_>,
        costs: &[u32],
        stage: Stage,
        conflicts: &[PairConflict],
    ) -> Result<Vec<GroupBound>, NoMemory>
        requires node { IsBranching self.old.problem node.now }
        requires current { current.now ≡ node.now.plan }
        ensures same { self.new ≡ self.old }
        ensures groups { IfOk result (λ found. AreKnownAt self.old.problem node.now found.items) }
    {
        let mut groups = Vec::new(self.alloc());
        for conflict in conflicts {
            if matches!(stage, Stage::Inherited) && !is_changed(node, conflict) {
                continue;
            }
            if let Some(agents) = two_of(self.alloc(), current, conflict)? {
                let group = self.group_bound(node, current, agents)?;
                if group.surplus(costs) > 0 {
                    groups.push(group)?;
                }
            }
        }
        Ok(groups)
    }

    /// What some agents cost together at least.
    fn group_bound(
        &mut self,
        node: &Node,
        current: &CurrentPaths<'_>,
        agents: Vec<usize>,
    ) -> Result<GroupBound, NoMemory>
        requires node { IsBranching self.old.problem node.now }
        requires current { current.now ≡ node.now.plan }
        requires group { IsGroup (length node.now.plan) agents.items }
        requires some { 0 < length agents.items }
        ensures same { self.new ≡ self.old }
        ensures group { IfOk result (λ found. IsGroupBound self.old.problem node.now.constraints
            found.agents.items found.least) }
    {
        let sets = sets_of(self.alloc, node, &agents)?;
        let least = self.groups.least_of(self.alloc, &agents, sets, current)?;
        Ok(GroupBound {
            agents,
            least,
            is_solved: false,
        })
    }
}
