ghost use Rattle.std.specs.Prelude.{◌≡◌, ◌<◌, ◌≤◌, length, MatchOption};
ghost use Rattle.mapf_grid.specs.declared.instance.TheConstants.{MOST_AGENTS};
ghost use Rattle.mapf_plan.specs.Plan.{place, plan_cost, IsFirstConflict, HasNoConflict};
ghost use Rattle.mapf_plan.specs.declared.answer.TheConstants.{MOST_STATED};

mod agent_paths;
mod path;

use crate::collisions::first_conflict_from;
use crate::{Conflict, Rule};
pub use agent_paths::AgentPaths;
use mapf_grid::Cell;
pub use path::{MOST_CELLS, Path};
use std::marker::Model;

/// One path for each agent, agent 0 first: at least one, at most 1,000.
#[derive(Debug, Drop)]
pub struct Plan {
    paths: Vec<Path>,
}

impl Model for Plan {
    ghost use Rattle.std.specs.Prelude.{ℕ, List, ◌<◌, ◌≤◌, length};
    ghost use Rattle.mapf_grid.specs.declared.instance.TheConstants.{MOST_AGENTS};

    ghost Value = { List (List ℕ) };

    ghost view = { λ p. p.paths.items };

    ghost invariant = { λ p. (0 < length p.paths.items) × (length p.paths.items ≤ MOST_AGENTS) };
}

impl Plan {
    /// The plan of these paths.
    pub fn of(paths: Vec<Path>) -> Self
        requires some { 0 < length paths.items }
        requires few { length paths.items ≤ MOST_AGENTS }
        ensures { result ≡ paths.items }
    {
        Plan { paths }
    }

    /// The agents' paths, agent 0 first.
    pub fn paths(&self) -> &[Path]
        ensures paths { result.now ≡ self.now }
        ensures some { 0 < length self.now }
        ensures few { length self.now ≤ MOST_AGENTS }
    {
        self.paths.as_slice()
    }

    /// The sum of costs: the costs of all paths, added up.
    pub fn cost(&self) -> u64
        ensures cost { result ≡ plan_cost self.now }
        ensures small { result ≤ MOST_STATED }
    {
        let mut sum = 0;
        for path in &self.paths {
            sum += u64::from(path.cost());
        }
        sum
    }

    /// Where an agent is at a time step: it stays on its path's last cell.
    pub fn at(&self, agent: usize, time: u32) -> Cell
        requires { agent < length self.now }
        ensures { result ≡ place self.now agent time }
    {
        self.paths[agent].at(time)
    }

    /// The first conflict of all times by the classical rule: by time, a vertex conflict before a swapping one,
    /// then by the smaller agent, and then by the larger. None if no two agents ever collide.
    pub fn first_conflict(&self) -> Option<Conflict>
        ensures { MatchOption result (HasNoConflict Rule.Classical self.now)
            (λ c. IsFirstConflict Rule.Classical self.now c) }
    {
        self.first_conflict_by(Rule::Classical)
    }

    /// The first conflict of all times by a rule: by time, a vertex conflict before a swapping one and that before
    /// a following one, then by the smaller agent, by the larger, and the smaller agent as the follower first.
    /// None if no two agents ever collide.
    pub fn first_conflict_by(&self, rule: Rule) -> Option<Conflict>
        ensures { MatchOption result (HasNoConflict rule self.now) (λ c. IsFirstConflict rule self.now c) }
    {
        first_conflict_from(self, rule, 0)
    }
}

impl AgentPaths for Plan {
    ghost paths = { λ p. p };

    fn agents(&self) -> usize {
        self.paths().len()
    }

    fn path(&self, agent: usize) -> &Path {
        &self.paths()[agent]
    }
}
