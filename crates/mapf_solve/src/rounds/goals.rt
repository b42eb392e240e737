//! The first round: the distances to the agents' goals.

ghost use Rattle.std.specs.Prelude.{◌≡◌, ◌≤◌, IfOk, length};
ghost use Rattle.mapf_board.specs.declared.limits.TheConstants.{MOST_TICKETS};
ghost use Rattle.mapf_grid.specs.Grid.{IsFree};
ghost use Rattle.mapf_tree.specs.Problem.{HasDistances};
ghost use Rattle.mapf_solve.specs.Rounds.{AreOfGoals, FitsGoal};

use crate::means::Means;
use mapf_board::{Gate, Order, Pair, Supply, Task, Work, answer_all};
use mapf_grid::{Cell, Instance, Map, NoMemory};
use mapf_low::Distances;
use std::alloc::Global;
use std::marker::{Model, PhantomData};
use std::thread::Threads;

/// The distances to a goal are wanted.
#[derive(Drop)]
struct GoalJob<'m> {
    map: &'m Map,
    goal: Cell,
    number: u64,
}

impl<'m> Model for GoalJob<'m> {
    ghost use Rattle.mapf_grid.specs.Grid.{IsFree};
    ghost use Rattle.mapf_solve.specs.Rounds.{WantedTable};

    ghost Value = { WantedTable };

    ghost view = { λ j. record { grid = j.map.now; goal = j.goal; number = j.number } };

    ghost invariant = { λ j. IsFree j.map.now j.goal };
}

impl<'m> GoalJob<'m> {
    /// The job for this goal.
    fn of(map: &'m Map, goal: Cell, number: u64) -> GoalJob<'m>
        requires { IsFree map.now goal }
        ensures { result ≡ record { grid = map.now; goal = goal; number = number } }
    {
        GoalJob { map, goal, number }
    }
}

/// Finds the distances to goals.
#[derive(Drop)]
struct GoalWork<'m> {
    alloc: Global,
    of: PhantomData<&'m Map>,
}

impl<'m> Task for GoalWork<'m> {
    type Job = GoalJob<'m>;

    type Answer = Distances;

    ghost fits = { FitsGoal };
}

impl<'m> Work for GoalWork<'m> {
    fn number(&self, job: &GoalJob<'m>) -> u64 {
        job.number
    }

    fn perform(&self, job: GoalJob<'m>) -> Result<Pair<GoalWork<'m>>, GoalJob<'m>> {
        match Distances::to(self.alloc, job.map, job.goal) {
            Ok(distances) => Ok(Pair::of(job, distances)),
            Err(_) => Err(job),
        }
    }
}

/// A goal's job is its own order.
impl<'m> Order<GoalWork<'m>> for GoalJob<'m> {
    ghost ordered = { λ j. j };

    fn job(&self, _alloc: Global) -> Result<GoalJob<'m>, mapf_board::NoMemory> {
        Ok(GoalJob::of(self.map, self.goal, self.number))
    }
}

/// The distances to each agent's goal, agent 0 first. Each goal is a job, and the jobs have the agents' numbers.
pub(crate) fn tables<R: Threads + Sync, G: Gate, S: Supply>(
    means: &Means<'_, R, G, S>,
    instance: &Instance,
) -> Result<Vec<Distances>, NoMemory>
    ensures { IfOk result (λ tables. HasDistances instance.now tables.items) }
{
    let jobs = goal_jobs(means.alloc, instance)?;
    let work = GoalWork {
        alloc: means.alloc,
        of: PhantomData,
    };
    let Ok(tables) = answer_all(
        means.rt,
        means.alloc,
        &work,
        &jobs,
        means.gate,
        means.supply,
        means.workers,
    ) else {
        return Err(NoMemory);
    };
    Ok(tables)
}

/// A job for each agent's goal.
fn goal_jobs(alloc: Global, instance: &Instance) -> Result<Vec<GoalJob<'_>>, NoMemory>
    ensures count { IfOk result (λ jobs. length jobs.items ≤ MOST_TICKETS) }
    ensures goals { IfOk result (λ jobs. AreOfGoals instance.now jobs.items) }
{
    let agents = instance.agents();
    let mut jobs = Vec::with_capacity(alloc, agents)?;
    for agent in 0..agents {
        jobs.push_reserved(GoalJob::of(instance.map(), instance.goal(agent), agent as u64));
    }
    Ok(jobs)
}
