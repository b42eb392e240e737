use crate::{AgentPaths, PairConflict, Path};
use std::marker::Model;
use std::sync::Arc;

/// A plan by the numbers of its paths, and pair conflicts of all its conflicts.
#[derive(Drop)]
pub struct KnownPlan {
    /// Each agent's path, agent 0's first.
    pub numbers: Vec<usize>,
    /// For each conflict of the plan its two agents, and a time step that isn't after it.
    pub conflicts: Vec<PairConflict>,
}

/// The plan of agents whose paths have these numbers, but for one agent whose path has another number.
#[derive(Drop)]
pub(crate) struct Numbered<'a> {
    pub(super) paths: &'a [Arc<Path>],
    pub(super) numbers: &'a [usize],
    pub(super) changed: usize,
    pub(super) number: usize,
}

impl<'a> Model for Numbered<'a> {
    ghost use Rattle.std.specs.Prelude.{ℕ, List, ◌<◌, ◌≤◌, length, map};
    ghost use Rattle.std.specs.Arc.{arc_value};
    ghost use Rattle.mapf_grid.specs.declared.instance.TheConstants.{MOST_AGENTS};
    ghost use Rattle.mapf_plan.specs.KnownPaths.{AreNumbers, changed_plan};

    ghost Value = { List (List ℕ) };

    ghost view = { λ n. changed_plan (map arc_value n.paths.now) n.numbers.now n.changed n.number };

    ghost invariant = { λ n. (0 < length n.numbers.now) × (length n.numbers.now ≤ MOST_AGENTS)
        × (n.number < length n.paths.now) × AreNumbers (map arc_value n.paths.now) n.numbers.now };
}

impl<'a> AgentPaths for Numbered<'a> {
    ghost paths = { λ n. n };

    fn agents(&self) -> usize {
        self.numbers.len()
    }

    fn path(&self, agent: usize) -> &Path {
        let number = if agent == self.changed {
            self.number
        } else {
            self.numbers[agent]
        };
        &self.paths[number]
    }
}
