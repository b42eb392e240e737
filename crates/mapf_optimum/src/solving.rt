//! Any optimum of a problem.

ghost use Rattle.std.specs.Prelude.{◌≡◌, ◌↔◌, IfOk, IsTrue, MatchOption, None, Some};
ghost use Rattle.mapf_tree.specs.Family.{AreRootPaths, IsRoot};
ghost use Rattle.mapf_optimum.specs.AnyAnswer.{IsAnyAnswer, IsAnyAnswerUpTo};
ghost use Rattle.mapf_optimum.specs.Groups.{AreKnown};
ghost use Rattle.mapf_optimum.specs.Told.{IsBegun, IsWatched};

use crate::FreeNode;
use crate::expansion::expand;
use crate::group_costs::GroupCosts;
use crate::group_search::GroupSearch;
use crate::groups::bounded;
use crate::guesses::Guide;
use crate::low_level::LowLevel;
use crate::part::Part;
use crate::waiting::Waiting;
use mapf_grid::NoMemory;
use mapf_plan::{Answer, Path};
use mapf_tree::{Problem, Watch, root_paths};
use std::alloc::Global;

/// With how much effort a group's plan is looked for, at most.
const EFFORT: usize = 500;

/// How many nodes of groups are expanded, at most, to bound one node.
const MOST_GROUP_NODES: u64 = 3_000;

/// A plan without conflict that costs least, whichever of several; none exactly where no plan without conflict costs at most the
/// bound; or, at the problem's limit on nodes, a lower bound.
///
/// Before each node that is expanded the watch is told how many were before it, with the least label that waits, and last of the end.
/// An error is that memory ran out.
pub fn solve_any<W: Watch>(
    alloc: Global,
    problem: &Problem,
    watch: &mut W,
) -> Result<Answer, NoMemory>
    ensures answer { IfOk result (IsAnyAnswer problem.now) }
    ensures told { IfOk result (IsWatched W.told problem.now problem.now.nodes watch.old watch.new) }
{
    let paths = root_paths(alloc, problem)?;
    solve_any_from(alloc, problem, paths, watch)
}

/// The same from each agent's own path under no constraints; none where some agent has none.
pub fn solve_any_from<W: Watch>(
    alloc: Global,
    problem: &Problem,
    paths: Option<Vec<Path>>,
    watch: &mut W,
) -> Result<Answer, NoMemory>
    requires { MatchOption paths (IsRoot problem.now None) (λ paths. AreRootPaths problem.now paths.items) }
    ensures answer { IfOk result (IsAnyAnswer problem.now) }
    ensures told { IfOk result (IsWatched W.told problem.now problem.now.nodes watch.old watch.new) }
{
    let mut groups = GroupSearch::new(alloc, problem)?;
    groups.any_optimum(alloc, paths, problem.nodes(), watch)
}

impl<'p> GroupSearch<'p> {
    /// The same by so many expanded nodes at most, whatever limit the problem has. What is found of groups is remembered.
    pub fn any_optimum<W: Watch>(
        &mut self,
        alloc: Global,
        paths: Option<Vec<Path>>,
        nodes: Option<u64>,
        watch: &mut W,
    ) -> Result<Answer, NoMemory>
        requires { MatchOption paths (IsRoot self.old None) (λ paths. AreRootPaths self.old paths.items) }
        ensures same { self.new ≡ self.old }
        ensures answer { IfOk result (IsAnyAnswerUpTo nodes self.old) }
        ensures told { IfOk result (IsWatched W.told self.old nodes watch.old watch.new) }
    {
        let waiting = begin(alloc, self.low.problem(), paths)?;
        search(
            alloc,
            &self.low,
            waiting,
            &mut self.known,
            &mut self.guide,
            nodes,
            watch,
        )
    }
}

/// The root alone, if there is one.
fn begin(alloc: Global, problem: &Problem, paths: Option<Vec<Path>>) -> Result<Waiting, NoMemory>
    requires { MatchOption paths (IsRoot problem.now None) (λ paths. AreRootPaths problem.now paths.items) }
    ensures { IfOk result (IsBegun problem.now) }
{
    let mut waiting = Waiting::new(alloc);
    if let Some(paths) = paths {
        waiting.put(FreeNode::root(alloc, problem, paths)?)?;
    }
    Ok(waiting)
}

/// Takes nodes, the least label first, until one has a plan without conflict, or none is left, or so many were expanded.
fn search<W: Watch>(
    alloc: Global,
    low: &LowLevel<'_>,
    waiting: Waiting,
    known: &mut GroupCosts,
    guide: &mut Guide,
    most: Option<u64>,
    watch: &mut W,
) -> Result<Answer, NoMemory>
    requires begun { IsBegun low.now waiting }
    requires known { AreKnown low.now known.old }
    ensures known { AreKnown low.now known.new }
    ensures answer { IfOk result (IsAnyAnswerUpTo most low.now) }
    ensures told { IfOk result (IsWatched W.told low.now most watch.old watch.new) }
{
    let problem = low.problem();
    let mut waiting = waiting;
    let part = Part::whole(alloc, low)?;
    let mut nodes = 0;
    'steps: loop {
        let Some(node) = waiting.take_least() else {
            let bound = problem.bound();
            watch.nodes_expanded(nodes, u64::from(bound) + 1);
            return Ok(Answer::None { bound });
        };
        if !node.is_bounded() {
            guide.left = MOST_GROUP_NODES;
            waiting.put(bounded(alloc, &part, node, EFFORT, known, guide)?)?;
            continue 'steps;
        }
        let least = node.label();
        watch.nodes_expanded(nodes, least);
        let Some(conflict) = node.choice(alloc, &part, &mut guide.costs)? else {
            let plan = node.into_plan();
            let stated = plan.cost();
            return Ok(Answer::Plan { plan, stated });
        };
        if is_limit(most, nodes) {
            return Ok(Answer::GaveUp { nodes, least });
        }
        if part.agents().len() > 2 {
            guide.add_failure(part.agents())?;
        }
        expand(alloc, &part, &node, &conflict, &mut waiting)?;
        nodes = nodes.saturating_add(1);
    }
}

/// Whether so many nodes may be expanded, and no more.
fn is_limit(most: Option<u64>, nodes: u64) -> bool
    ensures { IsTrue result ↔ (most ≡ Some nodes) }
{
    match most {
        Some(limit) => limit == nodes,
        None => false,
    }
}
