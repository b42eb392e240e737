ghost use Rattle.std.specs.Prelude.{◌≡◌, ◌≤◌, [], length, replicate, slice_get, Some, IfOk, IsTrue, MatchOption};
ghost use Rattle.mapf_plan.specs.Plan.{plan_cost};
ghost use Rattle.mapf_tree.specs.Nodes.{changed_sets};

mod agents;
pub(crate) mod chain;
pub(crate) mod change;
pub(crate) mod current_paths;
mod newest_changes;
mod order;
mod with_change;

use crate::node::chain::Chain;
use crate::{Key, Name};
use mapf_grid::NoMemory;
use mapf_low::Constraint;
use mapf_plan::{Conflict, Path, Plan, Rule};
use std::alloc::Global;
use std::marker::Model;
use std::sync::Arc;

/// A node of the constraint tree: a name, constraints for each agent, the plan of the agents' own paths, and the rule by which
/// plans of the tree have conflicts.
///
/// It keeps the root's plan and what each turn of its name changed, and shares both with the nodes beside and above it.
pub struct Node {
    /// Shared with its copies.
    body: Arc<Body>,
}

/// What a node is.
#[derive(Drop)]
struct Body {
    key: Key,
    chain: Chain,
    conflict: Option<Conflict>,
}

// By hand, so that a proof about what holds a node sees a call where it is dropped, and not what a node consists of.
impl Drop for Node {
    fn drop(self) {
        let Node { body: _ } = self;
    }
}

impl Model for Node {
    ghost use Rattle.mapf_tree.specs.Nodes.{Node, node_of, AgreesWith};

    ghost Value = { Node };

    ghost view = { λ n. node_of n.body.value.key.name n.body.value.chain n.body.value.conflict };

    ghost invariant = { λ n. AgreesWith n.body.value.key.cost n.body.value.key.depth
        (node_of n.body.value.key.name n.body.value.chain n.body.value.conflict) };
}

impl Node {
    ghost use Rattle.mapf_tree.specs.Tree.{key_rank};
    ghost use Rattle.mapf_tree.specs.Nodes.{AgreesWith, node_of, node_key, IsConflictOf};

    /// The node of no turn: no agent has a constraint, and this is the plan.
    pub(crate) fn root(alloc: Global, plan: Plan, rule: Rule) -> Result<Node, NoMemory>
        ensures name { IfOk result (λ n. n.name ≡ []) }
        ensures changes { IfOk result (λ n. n.changes ≡ []) }
        ensures constraints { IfOk result (λ n. n.constraints ≡ replicate (length plan) []) }
        ensures plan { IfOk result (λ n. n.plan ≡ plan) }
        ensures rule { IfOk result (λ n. n.rule ≡ rule) }
        ensures conflict { IfOk result (λ n. IsConflictOf rule plan n.conflict) }
    {
        let conflict = plan.first_conflict_by(rule);
        let body = Body {
            key: Key {
                cost: plan.cost(),
                depth: 0,
                name: Name::root(),
            },
            chain: Chain::new(alloc, plan, rule)?,
            conflict,
        };
        Ok(Node {
            body: Arc::new(alloc, body)?,
        })
    }

    /// The same node, whose changes stand in one list for the nodes below it, where it has as many of its own as may be, and no copy.
    pub fn share_changes(self) -> Node
        ensures { result ≡ self }
    {
        let Node { mut body } = self;
        if let Some(own) = Arc::get_mut(&mut body) {
            own.chain.share();
        }
        Node { body }
    }

    /// Where the node stands in the order of a search.
    pub fn key(&self) -> &Key
        ensures rank { key_rank result.now ≡ node_key self.now }
        ensures cost { result.now.cost ≡ plan_cost self.now.plan }
        ensures name { result.now.name ≡ self.now.name }
    {
        &self.body.key
    }

    /// The first conflict of the node's plan by the rule of its tree; none where the plan has no conflict.
    pub fn conflict(&self) -> Option<Conflict>
        ensures conflict { result ≡ self.now.conflict }
        ensures first { IsConflictOf self.now.rule self.now.plan result }
    {
        self.body.conflict
    }

    /// What a turn of the name changed, turns from 0: the agent, what it is forbidden since, and its path from then on. None
    /// from the name's length on.
    pub fn change(&self, turn: usize) -> Option<(usize, Constraint, &Path)>
        ensures change { MatchOption result (length self.now.changes ≤ turn)
            (λ found. slice_get self.now.changes turn
            ≡ Some (record { agent = found.0; constraint = found.1; path = found.2.now })) }
        ensures turns { length self.now.changes ≡ length self.now.name }
    {
        let chain = &self.body.chain;
        if turn >= chain.len() {
            return None;
        }
        let change = chain.at(turn);
        Some((change.agent, change.constraint, &change.path))
    }

    /// What the turns of its name changed.
    pub(crate) fn chain(&self) -> &Chain
        ensures changes { result.now.changes ≡ self.now.changes }
        ensures constraints { self.now.constraints
            ≡ changed_sets (replicate (length self.now.plan) []) self.now.changes }
    {
        &self.body.chain
    }

    /// Whether it is the node of no turn.
    pub(crate) fn is_root(&self) -> bool
        ensures { IsTrue result → self.now.constraints ≡ replicate (length self.now.plan) [] }
    {
        self.body.key.depth == 0
    }

    /// Where the node's memory is from.
    pub(crate) fn allocator(&self) -> Global {
        self.body.chain.allocator()
    }

    /// An equal node, which shares all with this one. An error is that it can't be shared more often.
    pub fn copy(&self) -> Result<Node, NoMemory>
        ensures { IfOk result (λ other. other ≡ self.now) }
    {
        Ok(Node {
            body: Arc::try_clone(&self.body)?,
        })
    }
}
