//! What agents cost together at least under sets of constraints, by groups of them, of which the same is asked.

ghost use Rattle.std.specs.Prelude.{◌≡◌, IfOk};
ghost use Rattle.mapf_optimum.specs.FreeTree.{IsFreeNode, IsLowerBoundOf};
ghost use Rattle.mapf_optimum.specs.FreeSearch.{IsBounded, IsSame};
ghost use Rattle.mapf_optimum.specs.Groups.{AreKnown, alone};

use crate::FreeNode;
use crate::agents::{copy_paths, copy_sets};
use crate::expansion::expand;
use crate::group_costs::{Found, GroupCosts};
use crate::guesses::Guide;
use crate::part::{Part, all_below};
use crate::together::MOST_TOGETHER;
use crate::waiting::Waiting;
use mapf_grid::NoMemory;
use std::alloc::Global;

/// How many groups are asked for at one node, at most.
const MOST_ASKED: usize = 100;

/// How often no plan of a group is found before little effort is made for it.
const MOST_FAILURES: u32 = 2;

/// From how many joint places all agents go on, at least, where they are more than two.
const MANY_PLACES: usize = 50_000;

/// Little effort.
const LITTLE: usize = 10;

/// What the candidates of a node cost at least, and one that costs so much, if it is known or found with so much effort.
#[cycle(groups)]
pub(crate) fn ask(
    alloc: Global,
    part: &Part<'_, '_>,
    node: FreeNode,
    effort: usize,
    known: &mut GroupCosts,
    guide: &mut Guide,
) -> Result<Found, NoMemory>
    requires node { IsFreeNode (alone part.now) node }
    requires known { AreKnown part.now.problem known.old }
    ensures known { AreKnown part.now.problem known.new }
    ensures least { IfOk result (λ found. IsLowerBoundOf (alone part.now) node.sets found.least) }
{
    let effort = effort_for(part, effort, guide);
    if let Some(found) = known.find(alloc, part, node.sets(), effort)? {
        return Ok(found);
    }
    let sets = copy_sets(alloc, node.sets())?;
    let least = known.least_under_fewer(part, &sets);
    let found = look_for(alloc, part, node.raised(part, least), effort, known, guide)?;
    if found.plan.is_none() {
        guide.add_failure(part.agents())?;
    }
    known.learn(alloc, part, &sets, &found, effort)?;
    Ok(found)
}

/// So much effort, or little, where it was in vain before.
fn effort_for(part: &Part<'_, '_>, effort: usize, guide: &Guide) -> usize {
    if guide.failures_of(part.agents()) > MOST_FAILURES {
        effort.min(LITTLE)
    } else {
        effort
    }
}

/// The same by a search from the node: nodes are bounded and expanded, the least label first, until one has a plan without conflict, or
/// the effort was made.
#[cycle(groups)]
fn look_for(
    alloc: Global,
    part: &Part<'_, '_>,
    node: FreeNode,
    effort: usize,
    known: &mut GroupCosts,
    guide: &mut Guide,
) -> Result<Found, NoMemory>
    requires node { IsFreeNode (alone part.now) node }
    requires known { AreKnown part.now.problem known.old }
    ensures known { AreKnown part.now.problem known.new }
    ensures least { IfOk result (λ found. IsLowerBoundOf (alone part.now) node.sets found.least) }
{
    let mut waiting = Waiting::new(alloc);
    waiting.put(Some(node))?;
    for _step in 0..effort.saturating_mul(3) {
        let Some(node) = waiting.take_least() else {
            return Ok(nothing(part));
        };
        if node.is_bounded() {
            let Some(conflict) = node.choice(alloc, part, &mut guide.costs)? else {
                return shown_by(alloc, node);
            };
            if guide.left == 0 {
                return Ok(given_up(&node));
            }
            guide.left = guide.left.saturating_sub(1);
            expand(alloc, part, &node, &conflict, &mut waiting)?;
        } else {
            waiting.put(bounded(alloc, part, node, effort / 2, known, guide)?)?;
        }
    }
    match waiting.take_least() {
        Some(node) => Ok(given_up(&node)),
        None => Ok(nothing(part)),
    }
}

/// No plan was found, and none costs less than the label.
fn given_up(node: &FreeNode) -> Found
    ensures { result.least ≡ node.now.label }
{
    Found {
        least: node.label(),
        plan: None,
    }
}

/// There is no candidate.
fn nothing(part: &Part<'_, '_>) -> Found {
    Found {
        least: u64::from(part.bound()) + 1,
        plan: None,
    }
}

/// The node's plan, at the node's label.
fn shown_by(alloc: Global, node: FreeNode) -> Result<Found, NoMemory>
    ensures { IfOk result (λ found. found.least ≡ node.label) }
{
    let least = node.label();
    let plan = copy_paths(alloc, node.into_plan().paths())?;
    Ok(Found {
        least,
        plan: Some(plan),
    })
}

/// The node with the label and the plans that its groups give; none where the label is over the bound.
#[cycle(groups)]
pub(crate) fn bounded(
    alloc: Global,
    part: &Part<'_, '_>,
    node: FreeNode,
    effort: usize,
    known: &mut GroupCosts,
    guide: &mut Guide,
) -> Result<Option<FreeNode>, NoMemory>
    requires node { IsFreeNode (alone part.now) node }
    requires known { AreKnown part.now.problem known.old }
    ensures known { AreKnown part.now.problem known.new }
    ensures bounded { IfOk result (IsBounded (alone part.now) node) }
{
    let (joined, is_solved) = joined(alloc, part, node, guide)?;
    if is_solved {
        let joined = joined.among_others(alloc, part, &mut guide.occupancy)?;
        return joined.finished(alloc, part, &mut guide.occupancy);
    }
    let settled = joined.settled(alloc, part, &mut guide.occupancy)?;
    let asked = grouped(alloc, part, settled, effort, known, guide)?;
    asked.finished(alloc, part, &mut guide.occupancy)
}

/// After how many failures so many agents are looked at together.
fn first_failure(count: usize) -> u32 {
    if count > 2 { 1 } else { 0 }
}

/// Whether so many agents are looked at together after so many failures: all agents a few times, others once.
fn is_tried(count: usize, failures: u32, is_whole: bool) -> bool {
    let first = first_failure(count);
    if is_whole {
        first <= failures && failures <= MOST_FAILURES
    } else {
        failures == first
    }
}

/// From how many joint places the node's agents go on: from many, if they are all agents, and more than two.
fn budget_for(node: &FreeNode, count: usize, is_whole: bool) -> usize {
    let budget = node.joint_budget();
    if is_whole && count > 2 {
        budget.max(MANY_PLACES)
    } else {
        budget
    }
}

/// The node with what its agents cost together, if they are few, and it wasn't in vain before.
fn joined(
    alloc: Global,
    part: &Part<'_, '_>,
    node: FreeNode,
    guide: &mut Guide,
) -> Result<(FreeNode, bool), NoMemory>
    requires { IsFreeNode (alone part.now) node }
    ensures { IfOk result (λ next. IsSame (alone part.now) node next.0) }
{
    let count = part.agents().len();
    let failures = guide.failures_of(part.agents());
    if count > MOST_TOGETHER || !is_tried(count, failures, part.is_whole()) {
        return Ok((node, false));
    }
    let budget = budget_for(&node, count, part.is_whole());
    let found = node.cost_together(alloc, part, budget)?;
    if found.plan.is_none() {
        guide.add_failure(part.agents())?;
    }
    let all = all_below(alloc, count)?;
    node.with_group(alloc, part, &all, found, &mut guide.occupancy)
}

/// The node whose agents were asked for in groups: those that collide become one.
#[cycle(groups)]
fn grouped(
    alloc: Global,
    part: &Part<'_, '_>,
    node: FreeNode,
    effort: usize,
    known: &mut GroupCosts,
    guide: &mut Guide,
) -> Result<FreeNode, NoMemory>
    requires node { IsFreeNode (alone part.now) node }
    requires known { AreKnown part.now.problem known.old }
    ensures known { AreKnown part.now.problem known.new }
    ensures same { IfOk result (IsSame (alone part.now) node) }
{
    let mut now = node;
    let mut vain = Vec::new(alloc);
    for _asked in 0..MOST_ASKED {
        let Some(agents) = now.next_group(alloc, &vain)? else {
            return Ok(now);
        };
        let inner = part.part(alloc, &agents)?;
        let group = now.part(alloc, part, &agents)?;
        let found = ask(alloc, &inner, group, effort, known, guide)?;
        let (next, is_solved) = now.with_group(alloc, part, &agents, found, &mut guide.occupancy)?;
        now = next;
        if !is_solved {
            vain.push(agents)?;
        }
    }
    Ok(now)
}
