ghost use Rattle.std.specs.Prelude.{◌≡◌, ◌<◌, ◌≤◌, length, slice_set, map, IfOk};

use crate::node::change::Change;
use mapf_grid::NoMemory;
use mapf_plan::{AgentPaths, Path, Plan};
use std::alloc::Global;
use std::marker::Model;

/// Each agent's path at a node, where it is kept: agent 0 first.
#[derive(Drop)]
pub struct CurrentPaths<'a> {
    paths: Vec<&'a Path>,
}

impl<'a> Model for CurrentPaths<'a> {
    ghost use Rattle.std.specs.Prelude.{ℕ, List, ◌<◌, ◌≤◌, length, map};
    ghost use Rattle.mapf_tree.specs.Prelude.{MOST_AGENTS};

    ghost Value = { List (List ℕ) };

    ghost view = { λ p. map (λ path. path.now) p.paths.items };

    ghost invariant = { λ p. (0 < length p.paths.items) × (length p.paths.items ≤ MOST_AGENTS) };
}

impl<'a> CurrentPaths<'a> {
    /// The paths of a plan.
    pub(crate) fn of(alloc: Global, plan: &'a Plan) -> Result<CurrentPaths<'a>, NoMemory>
        ensures { IfOk result (λ paths. paths ≡ plan.now) }
    {
        let mut paths = Vec::with_capacity(alloc, plan.paths().len())?;
        for path in plan.paths() {
            paths.push_reserved(path);
        }
        Ok(CurrentPaths { paths })
    }

    /// Another path for one agent.
    pub(crate) fn set(&mut self, agent: usize, path: &'a Path)
        requires { agent < length self.old }
        ensures { self.new ≡ slice_set self.old agent path.now }
    {
        self.paths[agent] = path;
    }

    /// The path of the agent that a change is of.
    pub(crate) fn change(&mut self, change: &'a Change)
        requires { change.now.agent < length self.old }
        ensures { self.new ≡ slice_set self.old change.now.agent change.now.path }
    {
        self.set(change.agent, &change.path);
    }

    /// A plan of copies of the paths.
    pub(crate) fn plan(&self, alloc: Global) -> Result<Plan, NoMemory>
        ensures { IfOk result (λ plan. plan ≡ self.now) }
    {
        let mut paths = Vec::with_capacity(alloc, self.paths.len())?;
        for path in &self.paths {
            paths.push_reserved(path.copy(alloc)?);
        }
        Ok(Plan::of(paths))
    }
}

impl<'a> AgentPaths for CurrentPaths<'a> {
    ghost paths = { λ p. p };

    fn agents(&self) -> usize {
        self.paths.len()
    }

    fn path(&self, agent: usize) -> &Path {
        self.paths[agent]
    }
}
