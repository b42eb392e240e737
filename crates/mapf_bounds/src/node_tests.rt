//! Tests of nodes: whether any plan without conflict that obeys a node costs at most so much.

ghost use Rattle.std.specs.Prelude.{◌≡◌, ◌≤◌, IfOk, IsTrue};
ghost use Rattle.mapf_tree.specs.Family.{IsBranching};
ghost use Rattle.mapf_bounds.specs.Waiting.{HoldsNone};

use mapf_grid::NoMemory;
use mapf_plan::Path;
use mapf_tree::{Node, Obeyed, OwnPaths, breaks};
use std::alloc::Global;
use std::sync::Arc;

/// How many plans are kept.
const MOST_PLANS: usize = 24;

/// How much work may be done at first, and never more, as `OwnPaths::obeyed_within` counts it.
const MOST_WORK: u64 = 50_000;

/// How much more may be done for each node that is looked at.
const WORK_BY_NODE: u64 = 1;

/// How much more for each that is left out: about what eight nodes take that are expanded.
const WORK_BY_FIND: u64 = 600;

/// With less than that nothing is searched.
const LEAST_WORK: u64 = 1_000;

/// What tests found, and how much work they may do.
#[derive(Drop)]
pub(crate) struct NodeTests {
    alloc: Global,
    /// Plans without conflict, by each agent's path: a node that one of them obeys isn't searched.
    plans: Vec<Vec<Arc<Path>>>,
    /// Which one is the next to go.
    oldest: usize,
    work: u64,
}

impl NodeTests {
    /// Nothing was tested.
    pub(crate) fn new(alloc: Global) -> NodeTests {
        NodeTests {
            alloc,
            plans: Vec::new(alloc),
            oldest: 0,
            work: MOST_WORK,
        }
    }

    /// Whether it was found that no plan without conflict obeys the node and costs at most so much.
    pub(crate) fn hold_none(
        &mut self,
        paths: &mut OwnPaths<'_>,
        node: &Node,
        most: u32,
    ) -> Result<bool, NoMemory>
        requires node { IsBranching paths.old node.now }
        requires most { most ≤ paths.old.bound }
        ensures paths { paths.new ≡ paths.old }
        ensures none { IfOk result (λ found. IsTrue found → HoldsNone paths.old node.now most) }
    {
        self.work = self.work.saturating_add(WORK_BY_NODE).min(MOST_WORK);
        if self.work < LEAST_WORK || self.has_plan_of(node) {
            return Ok(false);
        }
        match paths.obeyed_within(node, most, &mut self.work)? {
            Obeyed::ByNone => {
                self.work = self.work.saturating_add(WORK_BY_FIND);
                Ok(true)
            }
            Obeyed::ByPlan(plan) => {
                self.keep(plan)?;
                Ok(false)
            }
            Obeyed::Unknown => Ok(false),
        }
    }

    /// Whether a plan that is kept obeys the node.
    fn has_plan_of(&self, node: &Node) -> bool {
        for plan in &self.plans {
            if obeys(node, plan) {
                return true;
            }
        }
        false
    }

    /// Keeps a plan, in the place of the oldest if there are enough.
    fn keep(&mut self, plan: Vec<Arc<Path>>) -> Result<(), NoMemory> {
        if self.plans.len() < MOST_PLANS {
            self.plans.push(plan)?;
            return Ok(());
        }
        self.oldest = self.oldest.wrapping_add(1) % MOST_PLANS;
        if let Some(place) = self.plans.get_mut(self.oldest) {
            *place = plan;
        }
        Ok(())
    }
}

/// Whether the plan obeys all that the node's turns forbid, the last turn first.
fn obeys(node: &Node, plan: &[Arc<Path>]) -> bool {
    let turns = node.key().depth;
    for after in 0..turns {
        let Some((agent, constraint, _path)) = node.change(turns - 1 - after) else {
            return false;
        };
        let Some(path) = plan.get(agent) else {
            return false;
        };
        if breaks(path, &constraint) {
            return false;
        }
    }
    true
}
