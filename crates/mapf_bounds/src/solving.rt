//! The answer of a problem, by bounds.

ghost use Rattle.std.specs.Prelude.{◌≡◌, ◌<◌, ℕ, Option, [], IfOk, None, Ok};
ghost use Rattle.mapf_tree.specs.Answered.{IsAnswerOf, IsBestAnswer};
ghost use Rattle.mapf_optimum.specs.AnyAnswer.{IsAnyAnswerUpTo};
ghost use Rattle.mapf_bounds.specs.Bounds.{IsRange};
ghost use Rattle.mapf_tree.specs.Answered.{IsStated};
ghost use Rattle.mapf_tree.specs.LowerBound.{IsBelowAll};
ghost use Rattle.mapf_tree.specs.Problem.{Problem};
ghost use Rattle.mapf_tree.specs.Search.{CountsTaken};
ghost use Rattle.mapf_bounds.specs.Told.{IsWatched};
ghost use Rattle.mapf_bounds.specs.Below.{IsEnough};
ghost use Rattle.mapf_bounds.specs.Waiting.{IsCovering, IsMoving};

use crate::node_bounds::NodeBounds;
use crate::turn::{Outcome, turn};
use crate::waiting::{WaitingNode, admit_own};
use mapf_grid::NoMemory;
use mapf_optimum::GroupSearch;
use mapf_plan::Answer;
use mapf_tree::{
    Key, NoWatch, OpenList, OwnPaths, Problem, Progress, Search, Watch, least_stated, root_paths,
    solve_alone,
};
use std::alloc::Global;
use std::collections::BTreeMap;

/// How many nodes are taken by their keys at first.
const KEYED_NODES: u64 = 256;

/// How many nodes the search for the optimal cost expands, at most.
const OPTIMUM_NODES: u64 = 300;

/// Solves a problem on this thread. The answer is that of [`solve_alone`], mostly from a small part of the nodes where there is no limit
/// on them.
///
/// An error is that memory ran out.
pub fn solve_by_bounds(alloc: Global, problem: &Problem) -> Result<Answer, NoMemory>
    ensures answer { IfOk result (IsAnswerOf problem.now) }
    ensures best { IfOk result (IsBestAnswer problem.now) }
{
    if problem.nodes().is_some() {
        return solve_alone(alloc, problem);
    }
    let mut paths = OwnPaths::new(alloc, problem)?;
    let mut search = Search::new(alloc, problem)?;
    if let Progress::Finished = search.go(&mut paths, KEYED_NODES)? {
        return search.finish(&mut paths);
    }
    finish_by_bounds(alloc, search, paths, &mut NoWatch)
}

/// The answer of a search by keys that has none yet, where there is no limit on nodes: what waits there is searched by bounds, with the
/// own paths that are known.
///
/// Before each node that is expanded the watch is told how many both searches expanded before it, with what no plan without conflict
/// costs less than, and last of the end. An error is that memory ran out.
pub fn finish_by_bounds<W: Watch>(
    alloc: Global,
    search: Search<'_>,
    paths: OwnPaths<'_>,
    watch: &mut W,
) -> Result<Answer, NoMemory>
    requires open_yet { search.outcome ≡ Ok None }
    requires unlimited { search.problem.nodes ≡ None }
    requires paths { paths ≡ search.problem }
    ensures answer { IfOk result (IsAnswerOf search.entry.problem) }
    ensures best { IfOk result (IsBestAnswer search.entry.problem) }

    // The nodes that the search by keys took are counted, too.
    ensures told { IfOk result (λ given.
        CountsTaken search.entry.problem search.entry.last search.entry.taken
        × IsWatched W.told search.entry.problem search.entry.taken watch.old watch.new given) }
{
    let nodes = search.taken_nodes();
    let (problem, open_list) = search.into_waiting();
    let mut groups = GroupSearch::new(alloc, problem)?;
    let Some(range) = cost_range(alloc, &mut groups)? else {
        let bound = problem.bound();
        watch.nodes_expanded(nodes, u64::from(bound) + 1);
        return Ok(Answer::None { bound });
    };
    let waiting = admit_all(alloc, range, open_list)?;
    let bounds = NodeBounds::new(alloc, groups, range.most);
    search_by_bounds(waiting, paths, bounds, nodes, watch)
}

/// What the first solution costs.
#[derive(Clone, Copy)]
pub(crate) struct CostRange {
    /// At least so much.
    pub(crate) least: u64,
    /// At most so much, if there is one.
    pub(crate) most: u64,
}

/// What the first solution of a problem costs, as far as a search for any optimum tells; none where there is no solution.
fn cost_range(alloc: Global, groups: &mut GroupSearch<'_>) -> Result<Option<CostRange>, NoMemory>
    ensures same { groups.new ≡ groups.old }
    ensures range { IfOk result (IsRange groups.old) }
{
    let problem = groups.problem();
    let paths = root_paths(alloc, problem)?;
    let given = groups.any_optimum(alloc, paths, Some(OPTIMUM_NODES), &mut NoWatch)?;
    Ok(range_of(problem, &given))
}

/// What the answer of a search for any optimum tells of the cost of the first solution.
fn range_of(problem: &Problem, given: &Answer) -> Option<CostRange>
    ensures { (nodes : Option ℕ) → IsAnyAnswerUpTo nodes problem.now given.now → IsRange problem.now result }
{
    match given {
        Answer::None { .. } => None,
        Answer::Plan { stated, .. } => Some(CostRange {
            least: *stated,
            most: *stated,
        }),
        Answer::GaveUp { least, .. } => Some(CostRange {
            least: *least,
            most: u64::from(problem.bound()),
        }),
    }
}

/// The nodes of an open list, each under the key of a bound.
fn admit_all(
    alloc: Global,
    range: CostRange,
    open_list: OpenList,
) -> Result<BTreeMap<Key, WaitingNode>, NoMemory>
    ensures { IfOk result (λ waiting. (problem : Problem) → IsBelowAll problem range.least
        → IsMoving problem range.most open_list [] → IsCovering problem range.most waiting.entries) }
{
    let mut open_list = open_list;
    let mut waiting = BTreeMap::new(alloc);
    'nodes: while let Some(node) = open_list.take_least() {
        admit_own(alloc, range.least, range.most, &mut waiting, node)?;
    }
    Ok(waiting)
}

/// Takes turns until there is the answer. It returns, since a turn puts deeper nodes in the place of one, or a bound that each node has
/// once.
fn search_by_bounds<W: Watch>(
    waiting: BTreeMap<Key, WaitingNode>,
    paths: OwnPaths<'_>,
    bounds: NodeBounds<'_>,
    nodes: u64,
    watch: &mut W,
) -> Result<Answer, NoMemory>
    requires paths { paths ≡ bounds.problem }
    requires enough { IsEnough bounds.problem bounds.most }
    requires covering { IsCovering bounds.problem bounds.most waiting.entries }
    ensures stated { IfOk result (IsStated bounds.entry.problem) }
    ensures told { IfOk result (IsWatched W.told bounds.entry.problem nodes watch.old watch.new) }
{
    let mut waiting = waiting;
    let mut paths = paths;
    let mut bounds = bounds;
    let mut nodes = nodes;
    'turns: loop {
        let outcome = turn(&mut waiting, &mut paths, &mut bounds)?;
        match outcome {
            Outcome::Raised => {}
            Outcome::Expanded(least) => {
                watch.nodes_expanded(nodes, least);
                nodes = nodes.saturating_add(1);
            }
            Outcome::Ended(answer) => {
                watch.nodes_expanded(nodes, least_stated(&answer));
                return Ok(answer);
            }
        }
    }
}
