//! The root, whose paths are the jobs of a round.

ghost use Rattle.std.specs.Prelude.{◌≡◌, ◌<◌, ◌≤◌, Contains, IfOk, MatchOption, None, Some, length, map};
ghost use Rattle.mapf_board.specs.declared.limits.TheConstants.{MOST_TICKETS};
ghost use Rattle.mapf_tree.specs.Family.{AreRootPaths, IsRoot};
ghost use Rattle.mapf_solve.specs.Rounds.{AreOfAgents, FitsPath};

use crate::means::Means;
use mapf_board::{Gate, Order, Pair, Supply, Task, Work, answer_all};
use mapf_grid::NoMemory;
use mapf_plan::Path;
use mapf_tree::{Node, Problem, root_path, root_with};
use std::alloc::Global;
use std::marker::{Model, PhantomData};
use std::thread::Threads;

/// The root of a problem's tree; none exactly where it isn't in the tree. Its paths are those of [`root_paths`].
pub(crate) fn root<R: Threads + Sync, G: Gate, S: Supply>(
    means: &Means<'_, R, G, S>,
    problem: &Problem,
    first: u64,
) -> Result<Option<Node>, NoMemory>
    ensures { IfOk result (IsRoot problem.now) }
{
    match root_paths(means, problem, first)? {
        Some(paths) => root_with(means.alloc, problem, paths),
        None => Ok(None),
    }
}

/// Each agent's own path without constraints; none where one has none. Each is a job, and the jobs are numbered from `first` on.
pub(crate) fn root_paths<R: Threads + Sync, G: Gate, S: Supply>(
    means: &Means<'_, R, G, S>,
    problem: &Problem,
    first: u64,
) -> Result<Option<Vec<Path>>, NoMemory>
    ensures { IfOk result (λ paths. MatchOption paths (IsRoot problem.now None)
        (λ paths. AreRootPaths problem.now paths.items)) }
{
    let jobs = path_jobs(means.alloc, problem, first)?;
    let work = PathWork {
        alloc: means.alloc,
        of: PhantomData,
    };
    let Ok(found) = answer_all(
        means.rt,
        means.alloc,
        &work,
        &jobs,
        means.gate,
        means.supply,
        means.workers,
    ) else {
        return Err(NoMemory);
    };
    all_of(means.alloc, found)
}

/// All of these paths; none where one is missing.
fn all_of(alloc: Global, found: Vec<Option<Path>>) -> Result<Option<Vec<Path>>, NoMemory>
    ensures { IfOk result (λ paths. MatchOption paths (Contains found.items None)
        (λ paths. found.items ≡ map Some paths.items)) }
{
    let mut paths = Vec::with_capacity(alloc, found.len())?;
    for path in found {
        let Some(path) = path else {
            return Ok(None);
        };
        paths.push(path)?;
    }
    Ok(Some(paths))
}

/// A job for each agent's own path, numbered from `first` on.
fn path_jobs<'p>(
    alloc: Global,
    problem: &'p Problem,
    first: u64,
) -> Result<Vec<PathJob<'p>>, NoMemory>
    ensures count { IfOk result (λ jobs. length jobs.items ≤ MOST_TICKETS) }
    ensures agents { IfOk result (λ jobs. AreOfAgents problem.now first jobs.items) }
{
    let agents = problem.instance().agents();
    let mut jobs = Vec::with_capacity(alloc, agents)?;
    for agent in 0..agents {
        let number = first.saturating_add(agent as u64);
        jobs.push_reserved(PathJob::of(problem, agent, number));
    }
    Ok(jobs)
}

/// An agent's own path without constraints is wanted.
#[derive(Drop)]
struct PathJob<'p> {
    problem: &'p Problem,
    agent: usize,
    number: u64,
}

impl<'p> Model for PathJob<'p> {
    ghost use Rattle.std.specs.Prelude.{◌<◌, length};
    ghost use Rattle.mapf_solve.specs.Rounds.{WantedPath};

    ghost Value = { WantedPath };

    ghost view = { λ j. record { problem = j.problem.now; agent = j.agent; number = j.number } };

    ghost invariant = { λ j. j.agent < length j.problem.now.inst.starts };
}

impl<'p> PathJob<'p> {
    /// The job for this agent.
    fn of(problem: &'p Problem, agent: usize, number: u64) -> PathJob<'p>
        requires { agent < length problem.now.inst.starts }
        ensures { result ≡ record { problem = problem.now; agent = agent; number = number } }
    {
        PathJob {
            problem,
            agent,
            number,
        }
    }
}

/// Finds agents' own paths.
#[derive(Drop)]
struct PathWork<'p> {
    alloc: Global,
    of: PhantomData<&'p Problem>,
}

impl<'p> Task for PathWork<'p> {
    type Job = PathJob<'p>;

    type Answer = Option<Path>;

    ghost fits = { FitsPath };
}

impl<'p> Work for PathWork<'p> {
    fn number(&self, job: &PathJob<'p>) -> u64 {
        job.number
    }

    fn perform(&self, job: PathJob<'p>) -> Result<Pair<PathWork<'p>>, PathJob<'p>> {
        match root_path(self.alloc, job.problem, job.agent) {
            Ok(found) => Ok(Pair::of(job, found)),
            Err(_) => Err(job),
        }
    }
}

/// An agent's job is its own order.
impl<'p> Order<PathWork<'p>> for PathJob<'p> {
    ghost ordered = { λ j. j };

    fn job(&self, _alloc: Global) -> Result<PathJob<'p>, mapf_board::NoMemory> {
        Ok(PathJob::of(self.problem, self.agent, self.number))
    }
}
