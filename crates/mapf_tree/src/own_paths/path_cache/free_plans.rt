//! Plans of own paths under sets of constraints, of which any conflict may be branched on.

ghost use Rattle.std.specs.Prelude.{◌≡◌, ◌<◌, length, IfOk, IfSome, OnOk};
ghost use Rattle.mapf_tree.specs.Prelude.{Conflict, Side, IsConflict, IsBranching, StandsFor, PlannedNode, TreeNode, Grows, HasSide, IsFreeUnder, IsFreePlan, paths_of, side_of};

use crate::Node;
use crate::own_paths::path_cache::PathCache;
use crate::own_paths::path_cache::choice::Rises;
use crate::own_paths::path_cache::free_sides::FreeSide;
use mapf_grid::NoMemory;
use mapf_plan::{KnownPlan, Path};
use std::alloc::Global;
use std::sync::Arc;

/// Each agent's set of constraints and its own path under it, by number.
#[derive(Drop)]
pub(crate) struct FreePlan {
    pub(crate) sets: Vec<usize>,
    pub(crate) plan: KnownPlan,
    /// What all its paths cost.
    pub(crate) cost: u64,
    /// What the sides of its conflicts cost more, as far as that was looked for; a guess.
    pub(crate) rises: Vec<Rises>,
}

impl<'p> PathCache<'p> {
    /// The plan of a node of the tree; none where a set or a path isn't known.
    pub(super) fn free_plan(&mut self, node: &Node) -> Result<Option<FreePlan>, NoMemory>
        requires { IsBranching self.old.problem node.now }
        ensures problem { self.new.problem ≡ self.old.problem }
        ensures plan { IfOk result (λ found. IfSome found (λ free. (m : PlannedNode) → StandsFor self.new.problem node.now m → IsFreeUnder self.new m.0 free)) }
    {
        let Some(at) = self.numbers_at(node)? else {
            return Ok(None);
        };
        let free = FreePlan {
            sets: Vec::from_slice(self.alloc, at.sets.as_slice())?,
            plan: copy_of(self.alloc, &at.plan)?,
            cost: node.key().cost,
            rises: Vec::new(self.alloc),
        };
        self.latest = Some(at);
        Ok(Some(free))
    }

    /// The plan where the agent of a side has its set and its path there.
    pub(super) fn with_side(
        &mut self,
        free: &FreePlan,
        side: &FreeSide,
    ) -> Result<FreePlan, NoMemory>
        requires free { IsFreePlan self.old free.now }
        requires agent { side.now.agent < length free.now.sets.items }
        requires path { side.now.path < length self.old.paths }
        ensures same { self.new ≡ self.old }
        ensures plan { IfOk result (λ next. (c : Conflict) (on : Side) → HasSide self.old free.now c on side.now
            → (node : TreeNode) → IsFreeUnder self.old node free.now → IsFreeUnder self.old (side_of node c on) next) }
    {
        let mut sets = Vec::from_slice(self.alloc, free.sets.as_slice())?;
        sets[side.agent] = side.set;
        let mut plan = copy_of(self.alloc, &free.plan)?;
        self.paths.set_path(&mut plan, side.agent, side.path)?;
        Ok(FreePlan {
            sets,
            plan,
            cost: side.cost,
            rises: free.rises_without(self.alloc, side.agent)?,
        })
    }

    /// Its paths, agent 0's first, as far as they are known.
    pub(super) fn paths_in(&self, free: &FreePlan) -> Result<Vec<Arc<Path>>, NoMemory> {
        let mut paths = Vec::with_capacity(self.alloc, free.plan.numbers.len())?;
        for number in &free.plan.numbers {
            if let Some(path) = self.paths.path(*number) {
                paths.push(Arc::try_clone(path)?)?;
            }
        }
        Ok(paths)
    }
}

/// An equal plan.
fn copy_of(alloc: Global, plan: &KnownPlan) -> Result<KnownPlan, NoMemory>
    ensures numbers { IfOk result (λ copy. copy.numbers.items ≡ plan.now.numbers.items) }
    ensures conflicts { IfOk result (λ copy. copy.conflicts.items ≡ plan.now.conflicts.items) }
{
    Ok(KnownPlan {
        numbers: Vec::from_slice(alloc, plan.numbers.as_slice())?,
        conflicts: Vec::from_slice(alloc, plan.conflicts.as_slice())?,
    })
}
