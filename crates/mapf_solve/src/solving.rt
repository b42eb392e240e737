//! A problem's answer.

ghost use Rattle.std.specs.Prelude.{◌≡◌, ◌<◌, ◌≤◌, IfOk, None, Ok};
ghost use Rattle.mapf_tree.specs.Answered.{IsAnswerOf, IsBestAnswer};
ghost use Rattle.mapf_board.specs.declared.limits.TheConstants.{MOST_WORKERS};
ghost use Rattle.mapf_bounds.specs.Told as by_bounds;
ghost use Rattle.mapf_solve.specs.Told.{IsWatched, Tells};
ghost use Rattle.mapf_solve.specs.declared.pace.TheConstants.{MOST_SESSION_NODES, MOST_WORKER_TURNS};

use crate::means::Means;
use crate::pace::{MOST_SESSION_NODES, MOST_WORKER_TURNS, Pace};
use crate::rounds::root;
use crate::sessions::{Lookahead, OneProblem, SessionSearch, session};
use mapf_board::{AlwaysGrants, Gate, Supply};
use mapf_bounds::finish_by_bounds;
use mapf_grid::NoMemory;
use mapf_plan::Answer;
use mapf_tree::{NoWatch, Problem, Progress, Search, Watch};
use std::alloc::Global;
use std::marker::Brand;
use std::thread::Threads;

/// Solves a problem with so many workers: the answer is the same for each number of them.
///
/// The answer is the plan of the constraint tree's first solution, which has no conflict by the problem's rule and costs
/// least of all such plans; or none, exactly where no plan without conflict costs at most the bound. The gate is told of each
/// job that a worker does; no answer depends on it.
pub fn solve<R: Threads + Sync, G: Gate>(
    rt: &R,
    alloc: Global,
    problem: &Problem,
    workers: usize,
    gate: &G,
) -> Result<Answer, NoMemory>
    requires some { 0 < workers }
    requires few { workers ≤ MOST_WORKERS }
    ensures answer { IfOk result (IsAnswerOf problem.now) }
    ensures best { IfOk result (IsBestAnswer problem.now) }
{
    solve_with(rt, alloc, problem, workers, gate, &AlwaysGrants)
}

/// Solves a problem, where a worker does only those jobs for which the supply grants memory. The answer is that of `solve`
/// for every supply: what no worker did is worked out alone.
pub fn solve_with<R: Threads + Sync, G: Gate, S: Supply>(
    rt: &R,
    alloc: Global,
    problem: &Problem,
    workers: usize,
    gate: &G,
    supply: &S,
) -> Result<Answer, NoMemory>
    requires some { 0 < workers }
    requires few { workers ≤ MOST_WORKERS }
    ensures answer { IfOk result (IsAnswerOf problem.now) }
    ensures best { IfOk result (IsBestAnswer problem.now) }
{
    solve_paced(rt, alloc, problem, workers, Pace::LONGEST, gate, supply)
}

/// Solves a problem in sessions of this pace. The answer is that of `solve` for every pace: also where workers leave at
/// once.
pub fn solve_paced<R: Threads + Sync, G: Gate, S: Supply>(
    rt: &R,
    alloc: Global,
    problem: &Problem,
    workers: usize,
    pace: Pace,
    gate: &G,
    supply: &S,
) -> Result<Answer, NoMemory>
    requires some { 0 < workers }
    requires few { workers ≤ MOST_WORKERS }
    requires turns { pace.worker_turns ≤ MOST_WORKER_TURNS }
    requires nodes { (1 ≤ pace.session_nodes) × (pace.session_nodes ≤ MOST_SESSION_NODES) }
    ensures answer { IfOk result (IsAnswerOf problem.now) }
    ensures best { IfOk result (IsBestAnswer problem.now) }
{
    let means = Means {
        rt,
        alloc,
        workers,
        pace,
        gate,
        supply,
    };
    solve_watched(&means, problem, &mut NoWatch)
}

/// Solves a problem by these means, and between sessions a watch is told how far the search has come: first of the root, if that is
/// in the tree, and last of the end. The answer is that of `solve`.
pub fn solve_watched<R: Threads + Sync, G: Gate, S: Supply, W: Watch>(
    means: &Means<'_, R, G, S>,
    problem: &Problem,
    watch: &mut W,
) -> Result<Answer, NoMemory>
    ensures answer { IfOk result (IsAnswerOf problem.now) }
    ensures best { IfOk result (IsBestAnswer problem.now) }

    // No plan without conflict costs less than the watch is told, and the numbers of nodes that it is told never fall.
    ensures told { IfOk result (λ _. IsWatched W.told problem.now watch.old watch.new) }
{
    solve_in_sessions::<Brand, R, G, S, W>(means, problem, 0, watch)
}

/// The answer, by a search that goes on in sessions, where the jobs are numbered from `first` on.
pub(crate) fn solve_in_sessions<P: OneProblem, R: Threads + Sync, G: Gate, S: Supply, W: Watch>(
    means: &Means<'_, R, G, S>,
    problem: &Problem,
    first: u64,
    watch: &mut W,
) -> Result<Answer, NoMemory>
    requires { problem.now ≡ P.problem }
    ensures answer { IfOk result (IsAnswerOf P.problem) }
    ensures told { IfOk result (λ _. IsWatched W.told P.problem watch.old watch.new) }
{
    let mut sessions = begin::<P, R, G, S>(means, problem, first)?;
    tell(watch, &sessions.search);
    loop {
        let (further, progress) = session(means, sessions);
        sessions = further;
        tell(watch, &sessions.search);
        let Ok(Progress::Working) = progress else {
            break;
        };
        if problem.nodes().is_none() {
            return finish(means.alloc, sessions, watch);
        }
    }
    let SessionSearch { search, .. } = sessions;
    search.into_answer().ok_or(NoMemory)
}

/// The answer where there is no limit on nodes: what sessions leave waiting is searched by bounds, without workers.
fn finish<P: OneProblem, W: Watch>(
    alloc: Global,
    sessions: SessionSearch<'_, P>,
    watch: &mut W,
) -> Result<Answer, NoMemory>
    requires open_yet { sessions.search.outcome ≡ Ok None }
    requires unlimited { P.problem.nodes ≡ None }
    ensures answer { IfOk result (IsAnswerOf P.problem) }
    ensures told { IfOk result (λ given. (sessions.entry.search.taken ≤ u64.MAX)
        × by_bounds.IsWatched W.told P.problem sessions.entry.search.taken watch.old watch.new given) }
{
    let SessionSearch { search, lookahead } = sessions;
    finish_by_bounds(alloc, search, lookahead.into_own_paths(), watch)
}

/// A search of the root, whose jobs come before those of the sessions.
fn begin<'p, P: OneProblem, R: Threads + Sync, G: Gate, S: Supply>(
    means: &Means<'_, R, G, S>,
    problem: &'p Problem,
    first: u64,
) -> Result<SessionSearch<'p, P>, NoMemory>
    requires { problem.now ≡ P.problem }
    ensures { IfOk result (λ sessions. sessions.search.outcome ≡ Ok None) }
{
    let next = first.saturating_add(problem.instance().agents() as u64);
    let lookahead = Lookahead::<P>::new(means.alloc, problem, means.workers, next)?;
    let root = root(means, problem, first)?;
    let search = Search::from_root(means.alloc, problem, root)?;
    Ok(SessionSearch { search, lookahead })
}

/// Tells a watch how far a search has come, unless the tree has no root or memory ran out.
fn tell<W: Watch>(watch: &mut W, search: &Search<'_>)
    ensures { Tells W.told search.now watch.old watch.new }
{
    if search.last().is_none() && search.waiting().is_empty() {
        return;
    }
    let nodes = search.taken_nodes();
    if let Some(least) = search.lower_bound() {
        watch.nodes_expanded(nodes, least);
    }
}
