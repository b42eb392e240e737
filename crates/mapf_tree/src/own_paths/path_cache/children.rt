//! The children of a node whose own paths are known.

ghost use Rattle.std.specs.Prelude.{◌≡◌, ◌<◌, length, Some, IfOk, MatchOption};
ghost use Rattle.mapf_tree.specs.Prelude.{IfKnown, cost, path_of, IsBranching, IsChildOf, IsAt, HasNoTurnAt, IsTurnAt};

use crate::node::change::Change;
use crate::own_paths::path_cache::PathCache;
use crate::own_paths::path_cache::node_numbers::NodeNumbers;
use crate::tree::side_query::bound_for;
use crate::tree::sides::{agent_of, constraint_of};
use crate::{Node, Side};
use mapf_grid::NoMemory;
use mapf_low::Lookup;
use mapf_plan::MOST_BOUND;
use std::sync::Arc;

impl<'p> PathCache<'p> {
    /// The children of a node on both sides of its conflict, left first, each where its path is known.
    pub(crate) fn find_children(
        &mut self,
        node: &Node,
    ) -> Result<(Lookup<Option<Node>>, Lookup<Option<Node>>), NoMemory>
        requires { IsBranching self.old.problem node.now }
        ensures problem { self.new.problem ≡ self.old.problem }
        ensures left { IfOk result (λ found. IfKnown found.0 (IsChildOf self.old.problem node.now Side.Left)) }
        ensures right { IfOk result (λ found. IfKnown found.1 (IsChildOf self.old.problem node.now Side.Right)) }
    {
        let Some(at) = self.numbers_at(node)? else {
            return Ok((Lookup::Unknown, Lookup::Unknown));
        };
        let left = self.find_child(node, &at, Side::Left)?;
        let right = self.find_child(node, &at, Side::Right)?;
        self.latest = Some(at);
        Ok((left, right))
    }

    /// The child of a node on one side of its conflict, where its path is known: none exactly where it isn't in the tree.
    fn find_child(
        &mut self,
        node: &Node,
        at: &NodeNumbers,
        side: Side,
    ) -> Result<Lookup<Option<Node>>, NoMemory>
        requires node { IsBranching self.old.problem node.now }
        requires at { IsAt self.old node.now at.now }
        ensures same { self.new ≡ self.old }
        ensures child { IfOk result (λ found. IfKnown found (IsChildOf self.old.problem node.now side)) }
    {
        match self.known_turn(node, at, side)? {
            Lookup::Known(Some((path, change))) => {
                let child = self.child_with(node, at, side, path, change)?;
                Ok(Lookup::Known(Some(child)))
            }
            Lookup::Known(None) => Ok(Lookup::Known(None)),
            Lookup::Unknown => Ok(Lookup::Unknown),
        }
    }

    /// The child of a node on one side of its conflict that has this change, which gives the path of this number.
    fn child_with(
        &mut self,
        node: &Node,
        at: &NodeNumbers,
        side: Side,
        path: usize,
        change: Arc<Change>,
    ) -> Result<Node, NoMemory>
        requires node { IsBranching self.old.problem node.now }
        requires at { IsAt self.old node.now at.now }
        requires turn { IsTurnAt self.old node.now side path change.value }
        ensures same { self.new ≡ self.old }
        ensures child { IfOk result (λ child. IsChildOf self.old.problem node.now side (Some child)) }
    {
        let agent = change.agent;
        let old = self.cost_at(node, at, agent);
        let conflict = self.paths.first_conflict_of_changed(&at.plan, agent, path)?;
        let bound = self.problem.bound();
        prove!(u64::from(bound) <= MOST_BOUND);
        let child = node.with_change(self.alloc, side, change, old, conflict)?;
        Ok(child)
    }

    /// What is known of the own path that a side of a node asks for: its number, and the change that gives it; none where there is no
    /// such path.
    fn known_turn(
        &self,
        node: &Node,
        at: &NodeNumbers,
        side: Side,
    ) -> Result<Lookup<Option<(usize, Arc<Change>)>>, NoMemory>
        requires node { IsBranching self.now.problem node.now }
        requires at { IsAt self.now node.now at.now }
        ensures { IfOk result (λ found. IfKnown found (λ turn.
            MatchOption turn (HasNoTurnAt self.now node.now side) (λ t. IsTurnAt self.now node.now side t.0 t.1.value))) }
    {
        let conflict = node.conflict().unwrap();
        let agent = agent_of(&conflict, side);
        let constraint = constraint_of(&conflict, side);
        let set = at.sets[agent];
        let Some(extension) = self.sets.find_extension(usize::MAX, set, &constraint) else {
            return Ok(Lookup::Unknown);
        };
        let bound = bound_for(self.problem, node, agent, self.cost_at(node, at, agent));
        let Lookup::Known(path) = self.find_own_path(extension.after, bound) else {
            return Ok(Lookup::Unknown);
        };
        let Some(number) = path else {
            return Ok(Lookup::Known(None));
        };
        match &extension.change {
            Some(change) => Ok(Lookup::Known(Some((number, Arc::try_clone(change)?)))),
            None => Ok(Lookup::Unknown),
        }
    }

    /// What an agent's path costs at a node.
    fn cost_at(&self, node: &Node, at: &NodeNumbers, agent: usize) -> u32
        requires at { IsAt self.now node.now at.now }
        requires agent { agent < length node.now.plan }
        ensures { result ≡ cost (path_of node.now.plan agent) }
    {
        match self.paths.path(at.plan.numbers[agent]) {
            Some(path) => path.cost(),
            None => node.path(agent).cost(),
        }
    }
}
