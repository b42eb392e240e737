ghost use Rattle.std.specs.Prelude.{◌≡◌, ℕ, ◌<◌, [], ◌∷◌, ◌++◌, All, length, map, replicate, slice_get, slice_index_or, Some, IfOk};
ghost use Rattle.std.specs.Arc.{arc_value};
ghost use Rattle.mapf_plan.specs.Plan.{path_of};
ghost use Rattle.mapf_tree.specs.Nodes.{IsSameSet, changed_plan, changed_sets, with_one};

use crate::node::change::Change;
use crate::node::current_paths::CurrentPaths;
use crate::node::newest_changes::NewestChanges;
use mapf_grid::NoMemory;
use mapf_low::Constraints;
use mapf_plan::{Path, Plan, Rule};
use std::alloc::Global;
use std::marker::Model;
use std::sync::Arc;

/// The root's plan, the rule of its tree, and the changes that lead from the root to a node, the first turn's first.
///
/// Nodes share the plan, the rule and the older changes, so a child's chain copies no more than a few of its parent's pointers.
#[derive(Drop)]
pub(crate) struct Chain {
    older: Arc<Older>,
    newest: NewestChanges,
}

/// What the chains of some nodes share.
#[derive(Drop)]
struct Older {
    root: Arc<Root>,
    changes: Vec<Arc<Change>>,
}

/// What those of all nodes share: the root's plan, and the rule of its tree.
#[derive(Drop)]
pub(crate) struct Root {
    pub(crate) plan: Plan,
    pub(crate) rule: Rule,
}

impl Model for Chain {
    ghost use Rattle.std.specs.Prelude.{◌++◌, map};
    ghost use Rattle.std.specs.Arc.{arc_value};
    ghost use Rattle.mapf_tree.specs.Nodes.{Chain};

    ghost Value = { Chain };

    ghost view = { λ c. record {
      root = c.older.value.root.value.plan;
      rule = c.older.value.root.value.rule;
      changes = map arc_value c.older.value.changes.items ++ c.newest;
    } };
}

impl Chain {
    /// A root's plan, and no change.
    pub(crate) fn new(alloc: Global, plan: Plan, rule: Rule) -> Result<Chain, NoMemory>
        ensures root { IfOk result (λ chain. chain.root ≡ plan) }
        ensures rule { IfOk result (λ chain. chain.rule ≡ rule) }
        ensures changes { IfOk result (λ chain. chain.changes ≡ []) }
    {
        let older = Older {
            root: Arc::new(alloc, Root { plan, rule })?,
            changes: Vec::new(alloc),
        };
        Ok(Chain {
            older: Arc::new(alloc, older)?,
            newest: NewestChanges::none(),
        })
    }

    /// Where its memory is from.
    pub(crate) fn allocator(&self) -> Global {
        *self.older.changes.allocator()
    }

    /// The root's plan, and the rule of its tree.
    pub(crate) fn root(&self) -> &Root
        ensures plan { result.now.plan ≡ self.now.root }
        ensures rule { result.now.rule ≡ self.now.rule }
    {
        &self.older.root
    }

    /// How many changes there are.
    pub(crate) fn len(&self) -> usize
        ensures { result ≡ length self.now.changes }
    {
        self.older.changes.len() + self.newest.as_slice().len()
    }

    /// What a turn changed, turns from 0.
    #[inline]
    pub(crate) fn at(&self, turn: usize) -> &Change
        requires { turn < length self.now.changes }
        ensures { slice_get self.now.changes turn ≡ Some result.now }
    {
        let older = self.older.changes.len();
        if turn < older {
            &self.older.changes[turn]
        } else {
            &self.newest.as_slice()[turn - older]
        }
    }

    /// The chain with one change more. Where it has as many by itself as may be, those are shared with all nodes below it.
    pub(crate) fn with(&self, alloc: Global, change: Arc<Change>) -> Result<Chain, NoMemory>
        ensures { IfOk result (λ chain. chain ≡ with_one self.now change.value) }
    {
        if self.newest.is_full() {
            return Ok(Chain {
                older: self.all(alloc)?,
                newest: NewestChanges::none().with(change)?,
            });
        }
        Ok(Chain {
            older: Arc::try_clone(&self.older)?,
            newest: self.newest.with(change)?,
        })
    }

    /// All changes become one list that nodes share, if it has as many by itself as may be and memory suffices. So the chains
    /// below it share one list, and neither makes another one.
    pub(crate) fn share(&mut self)
        ensures { self.new ≡ self.old }
    {
        if self.newest.is_full() {
            if let Ok(all) = self.all(self.allocator()) {
                self.older = all;
                self.newest = NewestChanges::none();
            }
        }
    }

    /// The same, with all changes in one list.
    fn all(&self, alloc: Global) -> Result<Arc<Older>, NoMemory>
        ensures root { IfOk result (λ all. all.value.root.value.plan ≡ self.now.root) }
        ensures rule { IfOk result (λ all. all.value.root.value.rule ≡ self.now.rule) }
        ensures changes { IfOk result (λ all. map arc_value all.value.changes.items ≡ self.now.changes) }
    {
        let mut changes = Vec::with_capacity(alloc, self.len())?;
        changes.extend_with_clones(&self.older.changes)?;
        changes.extend_with_clones(self.newest.as_slice())?;
        let all = Older {
            root: Arc::try_clone(&self.older.root)?,
            changes,
        };
        Ok(Arc::new(alloc, all)?)
    }

    /// An agent's path: that of its last change, or the root's.
    pub(crate) fn path(&self, agent: usize) -> &Path
        requires { agent < length self.now.root }
        ensures { result.now ≡ path_of (changed_plan self.now.root self.now.changes) agent }
    {
        let mut path = &self.root().plan.paths()[agent];
        for turn in 0..self.len() {
            let change = self.at(turn);
            if change.agent == agent {
                path = &change.path;
            }
        }
        path
    }

    /// All agents' paths.
    pub(crate) fn paths(&self, alloc: Global) -> Result<CurrentPaths<'_>, NoMemory>
        requires { All (λ x. x.agent < length self.now.root) self.now.changes }
        ensures { IfOk result (λ paths. paths ≡ changed_plan self.now.root self.now.changes) }
    {
        let mut paths = CurrentPaths::of(alloc, &self.root().plan)?;
        for turn in 0..self.len() {
            paths.change(self.at(turn));
        }
        Ok(paths)
    }

    /// What an agent is forbidden.
    pub(crate) fn constraints(&self, alloc: Global, agent: usize) -> Result<Constraints, NoMemory>
        ensures { IfOk result (λ set. (agents : ℕ) → agent < agents
            → IsSameSet set (slice_index_or (changed_sets (replicate agents []) self.now.changes) agent [])) }
    {
        let mut constraints = Constraints::new(alloc);
        for turn in 0..self.len() {
            let change = self.at(turn);
            if change.agent == agent {
                constraints = constraints.and(change.constraint)?;
            }
        }
        Ok(constraints)
    }
}
