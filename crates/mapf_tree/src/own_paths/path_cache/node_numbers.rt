//! Each agent's set of constraints and its path at a node, by number.

ghost use Rattle.std.specs.Prelude.{◌≡◌, ◌+◌, ◌<◌, List, ◌∷◌, [], length, slice_get, Some, IfSome, IfOk, IsTrue};
ghost use Rattle.mapf_tree.specs.Prelude.{path_of, Constraint, changed_sets, IsBranching, AreSetsOf, IsPlanOf, IsPlanUpTo, IsAt};

use crate::Node;
use crate::node::chain::Chain;
use crate::node::change::Change;
use crate::own_paths::constraint_sets::{CachedPath, ConstraintSets};
use crate::own_paths::path_cache::PathCache;
use mapf_grid::NoMemory;
use mapf_plan::{KnownPlan, PairConflict};
use std::mem::replace;

/// What agents have at a node, by numbers.
#[derive(Drop)]
pub(crate) struct NodeNumbers {
    /// Each agent's set of constraints.
    pub(crate) sets: Vec<usize>,
    /// The node's plan.
    pub(crate) plan: KnownPlan,
}

impl<'p> PathCache<'p> {
    /// The numbers at a node, from those at the one that was looked at last. None where a set or a path isn't known.
    pub(crate) fn numbers_at(&mut self, node: &Node) -> Result<Option<NodeNumbers>, NoMemory>
        requires { IsBranching self.old.problem node.now }
        ensures problem { self.new.problem ≡ self.old.problem }
        ensures numbers { IfOk result (λ found. IfSome found (IsAt self.new node.now)) }
    {
        self.number_first_sets(node)?;
        if let Some(latest) = replace(&mut self.latest, None) {
            if latest.plan.numbers.len() == node.agents() {
                return self.numbers_from(node, latest);
            }
        }
        self.all_numbers(node)
    }

    /// The pairs of agents that collide at a node, as far as the agents' paths are known.
    pub(crate) fn pair_conflicts(&mut self, node: &Node) -> Result<Vec<PairConflict>, NoMemory>
        requires { IsBranching self.old.problem node.now }
        ensures { self.new.problem ≡ self.old.problem }
    {
        let at = self.numbers_at(node)?;
        let found = match &at {
            Some(known) => Vec::from_slice(self.alloc, known.plan.conflicts.as_slice())?,
            None => Vec::new(self.alloc),
        };
        self.latest = at;
        Ok(found)
    }

    /// The numbers at a node, from those at another one with as many agents.
    fn numbers_from(
        &mut self,
        node: &Node,
        other: NodeNumbers,
    ) -> Result<Option<NodeNumbers>, NoMemory>
        requires node { IsBranching self.old.problem node.now }
        requires other { IsPlanOf self.old other.plan }
        requires agents { length other.plan.numbers.items ≡ length node.now.plan }
        ensures same { self.new ≡ self.old }
        ensures numbers { IfOk result (λ found. IfSome found (IsAt self.old node.now)) }
    {
        let NodeNumbers {
            sets: spare,
            mut plan,
        } = other;
        let Some(sets) = self.sets_at(node, spare)? else {
            return Ok(None);
        };
        for agent in 0..node.agents() {
            if !self.give_path(node, &sets, agent, &mut plan)? {
                return Ok(None);
            }
        }
        Ok(Some(NodeNumbers { sets, plan }))
    }

    /// Gives an agent of a plan the path that it has at a node. False where that isn't known.
    #[inline(always)]
    fn give_path(
        &mut self,
        node: &Node,
        sets: &[usize],
        agent: usize,
        plan: &mut KnownPlan,
    ) -> Result<bool, NoMemory>
        requires node { IsBranching self.old.problem node.now }
        requires sets { AreSetsOf self.old.sets sets.now node.now.constraints }
        requires agent { agent < length node.now.plan }
        requires plan { IsPlanUpTo self.old node.now agent plan.old }
        ensures same { self.new ≡ self.old }
        ensures plan { IfOk result (λ known. IsTrue known → IsPlanUpTo self.old node.now (agent + 1) plan.new) }
    {
        let Some(number) = self.path_at(node, sets, agent) else {
            return Ok(false);
        };
        if plan.numbers[agent] == number {
            return Ok(true);
        }
        self.paths.set_path(plan, agent, number)?;
        Ok(true)
    }

    /// The numbers at a node, where all its pairs of agents are looked up.
    fn all_numbers(&mut self, node: &Node) -> Result<Option<NodeNumbers>, NoMemory>
        requires { IsBranching self.old.problem node.now }
        ensures same { self.new ≡ self.old }
        ensures numbers { IfOk result (λ found. IfSome found (IsAt self.old node.now)) }
    {
        let Some(sets) = self.sets_at(node, Vec::new(self.alloc))? else {
            return Ok(None);
        };
        let mut numbers = Vec::with_capacity(self.alloc, node.agents())?;
        for agent in 0..node.agents() {
            let Some(number) = self.path_at(node, &sets, agent) else {
                return Ok(None);
            };
            numbers.push_reserved(number);
        }
        let plan = self.paths.plan(&numbers)?;
        Ok(Some(NodeNumbers { sets, plan }))
    }

    /// The number of an agent's path at a node, whose sets are given: the own path under its set. None where that isn't known.
    #[inline(always)]
    fn path_at(&self, node: &Node, sets: &[usize], agent: usize) -> Option<usize>
        requires node { IsBranching self.now.problem node.now }
        requires sets { AreSetsOf self.now.sets sets.now node.now.constraints }
        requires agent { agent < length node.now.plan }
        ensures { IfSome result (λ n. slice_get self.now.paths n ≡ Some (path_of node.now.plan agent)) }
    {
        match self.sets.get(sets[agent])?.own {
            CachedPath::Path(number, _) => Some(number),
            CachedPath::NoneWithin(_) => None,
        }
    }

    /// The number of each agent's set at a node, in the place of what a list had. None where one isn't known.
    pub(crate) fn sets_at(
        &self,
        node: &Node,
        spare: Vec<usize>,
    ) -> Result<Option<Vec<usize>>, NoMemory>
        requires { IsBranching self.now.problem node.now }
        ensures { IfOk result (λ found. IfSome found
            (λ sets. AreSetsOf self.now.sets sets.items node.now.constraints)) }
    {
        if self.firsts.is_empty() {
            return Ok(None);
        }
        let mut sets = spare;
        sets.clear();
        sets.extend_from_slice(&self.firsts)?;
        if !extend_sets(&self.sets, &mut sets, node.chain()) {
            return Ok(None);
        }
        Ok(Some(sets))
    }
}

/// Each agent's set after some changes more; false where one isn't known.
fn extend_sets(known: &ConstraintSets, sets: &mut Vec<usize>, chain: &Chain) -> bool
    ensures { IsTrue result → (cs : List (List Constraint)) → AreSetsOf known.now sets.old.items cs
        → AreSetsOf known.now sets.new.items (changed_sets cs chain.now.changes) }
{
    for turn in 0..chain.len() {
        if !extend_set(known, sets, chain.at(turn)) {
            return false;
        }
    }
    true
}

/// Each agent's set after one change more; false where it isn't known.
fn extend_set(known: &ConstraintSets, sets: &mut Vec<usize>, change: &Change) -> bool
    ensures { IsTrue result → (cs : List (List Constraint)) → AreSetsOf known.now sets.old.items cs
        → AreSetsOf known.now sets.new.items (changed_sets cs (change.now ∷ [])) }
{
    if change.agent >= sets.len() {
        return false;
    }
    match known.find_extension(change.extension, sets[change.agent], &change.constraint) {
        Some(extension) => {
            sets[change.agent] = extension.after;
            true
        }
        None => false,
    }
}
