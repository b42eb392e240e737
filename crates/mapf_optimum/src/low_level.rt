//! Least paths of single agents.

ghost use Rattle.std.specs.Prelude.{◌≡◌, ℕ, ◌<◌, ◌≤◌, List, length, IfOk};
ghost use Rattle.mapf_plan.specs.Path.{cost};
ghost use Rattle.mapf_plan.specs.declared.answer.TheConstants.{MOST_BOUND};
ghost use Rattle.mapf_tree.specs.Tree.{IsAllowedFor};
ghost use Rattle.mapf_optimum.specs.FreeSearch.{IsLeastWithin, HasStartTables};

use mapf_grid::{Instance, NoMemory};
use mapf_low::{Backwards, Constraints, Distances, Lookup, cheapest_backwards};
use mapf_plan::{Path, Rule};
use mapf_tree::{Problem, own_path};
use std::alloc::Global;
use std::marker::Model;

/// How many dead ends a search backwards may meet before it begins again, by the search forwards.
const DEAD_ENDS: usize = 1_000;

/// A problem with the distances from each agent's start, by which paths are searched backwards.
pub struct LowLevel<'p> {
    problem: &'p Problem,
    from_starts: Vec<Distances>,
}

// By hand, so that a proof about what holds one sees a call where it is dropped, and not its fields.
impl<'p> Drop for LowLevel<'p> {
    fn drop(self) {
        let LowLevel {
            problem: _,
            from_starts: _,
        } = self;
    }
}

impl<'p> Model for LowLevel<'p> {
    ghost use Rattle.mapf_tree.specs.Problem.{Problem};
    ghost use Rattle.mapf_optimum.specs.FreeSearch.{HasStartTables};

    ghost Value = { Problem };

    ghost view = { λ l. l.problem.now };

    ghost invariant = { λ l. HasStartTables l.problem.now.inst l.from_starts.items };
}

impl<'p> LowLevel<'p> {
    /// The tables are made.
    pub fn new(alloc: Global, problem: &'p Problem) -> Result<LowLevel<'p>, NoMemory>
        ensures { IfOk result (λ low. low ≡ problem.now) }
    {
        let from_starts = distances_from_starts(alloc, problem.instance())?;
        Ok(LowLevel {
            problem,
            from_starts,
        })
    }

    /// The problem.
    pub(crate) fn problem(&self) -> &'p Problem
        ensures { result.now ≡ self.now }
    {
        self.problem
    }

    /// What a least path of the agent costs under these constraints, at a cost within the problem's bound.
    pub(crate) fn cost_under(
        &self,
        alloc: Global,
        agent: usize,
        constraints: &Constraints,
    ) -> Result<Option<u32>, NoMemory> {
        if agent >= self.from_starts.len() {
            return Ok(None);
        }
        let found = self.least_path(alloc, agent, constraints, self.problem.bound(), 0)?;
        Ok(found.map(|path| path.cost()))
    }

    /// By which rule plans have conflicts.
    pub(crate) fn rule(&self) -> Rule
        ensures { result ≡ self.now.rule }
    {
        self.problem.rule()
    }

    /// What a plan of them may cost at most.
    pub(crate) fn bound(&self) -> u32
        ensures bound { result ≡ self.now.bound }
        ensures small { result ≤ MOST_BOUND }
    {
        self.problem.bound()
    }

    /// A least path of the agent under these constraints, at a cost within the bound, where none that it may take costs less than
    /// `least`.
    pub(crate) fn least_path(
        &self,
        alloc: Global,
        agent: usize,
        constraints: &Constraints,
        bound: u32,
        least: u32,
    ) -> Result<Option<Path>, NoMemory>
        requires agent { agent < length self.now.inst.starts }
        requires small { bound ≤ MOST_BOUND }
        requires least { (path : List ℕ)
            → IsAllowedFor (record (self.now) { bound = bound }) agent constraints.now path → least ≤ cost path }
        ensures { IfOk result (IsLeastWithin self.now bound agent constraints.now) }
    {
        let instance = self.problem.instance();
        let by = Backwards {
            from_start: &self.from_starts[agent],
            least,
            budget: DEAD_ENDS,
        };
        let (start, goal) = (instance.start(agent), instance.goal(agent));
        match cheapest_backwards(alloc, instance.map(), start, goal, constraints, bound, &by)? {
            Lookup::Known(found) => Ok(found),
            Lookup::Unknown => own_path(alloc, self.problem, agent, constraints, bound),
        }
    }
}

/// The distances from each agent's start, agent 0's first.
fn distances_from_starts(alloc: Global, instance: &Instance) -> Result<Vec<Distances>, NoMemory>
    ensures { IfOk result (λ tables. HasStartTables instance.now tables.items) }
{
    let mut tables = Vec::with_capacity(alloc, instance.agents())?;
    for agent in 0..instance.agents() {
        tables.push_reserved(Distances::to(alloc, instance.map(), instance.start(agent))?);
    }
    Ok(tables)
}
