//! What is remembered of own paths: sets of constraints that agents met, and what was found under them.

ghost use Rattle.std.specs.Prelude.{◌≡◌, ◌<◌, ◌≤◌, ℕ, List, [], length, replicate, slice_get, Some, option_map, IfOk, OnOk};
ghost use Rattle.mapf_tree.specs.Prelude.{arc_value, Constraint, IsBranching, IsOwnWithin, IsFoundBy, HasSet, IsCachedPath, IsQueryIn, KnowsAnswerTo, IsTold, TellsUpTo};

use crate::own_paths::constraint_sets::{CachedPath, ConstraintSet};
use crate::own_paths::path_cache::PathCache;
use crate::{Node, SideQuery};
use mapf_grid::NoMemory;
use mapf_low::Constraints;
use mapf_plan::Path;
use std::sync::Arc;

impl<'p> PathCache<'p> {
    /// Each agent's empty set gets a number, once the root is met.
    pub(crate) fn number_first_sets(&mut self, node: &Node) -> Result<(), NoMemory>
        requires { IsBranching self.old.problem node.now }
        ensures { self.new.problem ≡ self.old.problem }
    {
        if !self.firsts.is_empty() || !node.is_root() {
            return Ok(());
        }
        let mut firsts = Vec::with_capacity(self.alloc, node.agents())?;
        for agent in 0..node.agents() {
            let set = self.first_set(node, agent)?;
            firsts.push_reserved(set);
        }
        self.firsts = firsts;
        Ok(())
    }

    /// Remembers an agent's path at the root, under the empty set. Answers the set's number.
    fn first_set(&mut self, root: &Node, agent: usize) -> Result<usize, NoMemory>
        requires root { IsBranching self.old.problem root.now }
        requires none { root.now.constraints ≡ replicate (length root.now.plan) [] }
        requires agent { agent < length root.now.plan }
        ensures problem { self.new.problem ≡ self.old.problem }
        ensures kept { (n a : ℕ) (cs : List Constraint) → HasSet self.old.sets n a cs → HasSet self.new.sets n a cs }
        ensures set { IfOk result (λ set. HasSet self.new.sets set agent []) }
    {
        let path = Arc::new(self.alloc, root.path(agent).copy(self.alloc)?)?;
        let bound = self.problem.bound();
        self.add(agent, Constraints::new(self.alloc), bound, Some(&path))
    }

    /// Remembers what the query of a side of a node was answered. Answers the extension's number, or 0 where the node's sets aren't
    /// known.
    pub(crate) fn learn(
        &mut self,
        node: &Node,
        query: &SideQuery<'p>,
        path: Option<&Arc<Path>>,
    ) -> Result<usize, NoMemory>
        requires query { IsQueryIn self.old.problem node.now query.now }
        requires path { IsFoundBy query.now (option_map (λ p. arc_value p.now) path) }
        ensures problem { self.new.problem ≡ self.old.problem }
        ensures answer { OnOk result (KnowsAnswerTo self.new query.now) }
    {
        self.number_first_sets(node)?;
        let set = self.keep_set(node, query, path)?;
        match self.sets_at(node, Vec::new(self.alloc))? {
            Some(sets) => {
                let before = sets[query.agent()];
                self.sets
                    .extend(self.alloc, before, query.constraint(), set)
            }
            None => Ok(0),
        }
    }

    /// The number of a query's set. It is remembered now where it isn't known, or not what its own path is within the bound: a
    /// set under which there is a path has one number, so that each change of a node leads to the set that it led to before.
    fn keep_set(
        &mut self,
        node: &Node,
        query: &SideQuery<'p>,
        path: Option<&Arc<Path>>,
    ) -> Result<usize, NoMemory>
        requires query { IsQueryIn self.old.problem node.now query.now }
        requires path { IsFoundBy query.now (option_map (λ p. arc_value p.now) path) }
        ensures problem { self.new.problem ≡ self.old.problem }
        ensures set { IfOk result (λ set. HasSet self.new.sets set query.now.agent query.now.constraints) }
        ensures told { IfOk result (λ set. TellsUpTo self.new.sets set query.now.bound) }
    {
        if let Some(set) = self.find_set(query) {
            return Ok(set);
        }
        let constraints = query.constraints().copy()?;
        self.add(query.agent(), constraints, query.bound(), path)
    }

    /// Remembers an agent's set, and its own path at a cost of at most the bound. Answers the set's number.
    pub(crate) fn add(
        &mut self,
        agent: usize,
        constraints: Constraints,
        bound: u32,
        path: Option<&Arc<Path>>,
    ) -> Result<usize, NoMemory>
        requires bound { bound ≤ self.old.problem.bound }
        requires path { IsOwnWithin self.old.problem bound agent constraints (option_map (λ p. arc_value p.now) path) }
        ensures problem { self.new.problem ≡ self.old.problem }
        ensures kept { (n a : ℕ) (cs : List Constraint) → HasSet self.old.sets n a cs → HasSet self.new.sets n a cs }
        ensures paths { (n : ℕ) (p : List ℕ) → slice_get self.old.paths n ≡ Some p → slice_get self.new.paths n ≡ Some p }
        ensures set { IfOk result (λ set. HasSet self.new.sets set agent constraints) }
        ensures told { IfOk result (λ set. TellsUpTo self.new.sets set bound) }
    {
        match path {
            Some(path) => {
                let path = Arc::try_clone(path)?;
                let number = self.paths.number(Arc::try_clone(&path)?)?;
                self.push(agent, constraints, CachedPath::Path(number, path))
            }
            None => self.push(agent, constraints, CachedPath::NoneWithin(bound)),
        }
    }

    /// Remembers an agent's set, and what its own path is. Answers the set's number.
    fn push(
        &mut self,
        agent: usize,
        constraints: Constraints,
        own: CachedPath,
    ) -> Result<usize, NoMemory>
        requires { IsCachedPath self.old.problem self.old.paths agent constraints own }
        ensures problem { self.new.problem ≡ self.old.problem }
        ensures kept { (n a : ℕ) (cs : List Constraint) → HasSet self.old.sets n a cs → HasSet self.new.sets n a cs }
        ensures paths { (n : ℕ) (p : List ℕ) → slice_get self.old.paths n ≡ Some p → slice_get self.new.paths n ≡ Some p }
        ensures set { IfOk result (λ set. HasSet self.new.sets set agent constraints) }
        ensures told { IfOk result (λ set. (bound : ℕ) → IsTold bound own → TellsUpTo self.new.sets set bound) }
    {
        let set = self.sets.push(ConstraintSet {
            agent,
            constraints,
            own,
        })?;
        Ok(set)
    }
}
