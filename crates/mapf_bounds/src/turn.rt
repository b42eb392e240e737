//! A turn of the search by bounds.

ghost use Rattle.std.specs.Prelude.{◌≡◌, IfOk, OnOk};
ghost use Rattle.mapf_tree.specs.Family.{IsBranching};
ghost use Rattle.mapf_bounds.specs.Below.{IsEnough};
ghost use Rattle.mapf_bounds.specs.Groups.{AreKnownAt};
ghost use Rattle.mapf_bounds.specs.Waiting.{Expands, IsCovering, IsLeftOrExpanded, IsTurn};

use crate::LowerBound;
use crate::node_bounds::NodeBounds;
use crate::waiting::{WaitingNode, admit, admit_child};
use mapf_grid::NoMemory;
use mapf_plan::Answer;
use mapf_tree::{Children, Key, OwnPaths};
use std::collections::BTreeMap;

/// What came of a turn.
#[derive(Drop)]
pub(crate) enum Outcome {
    /// The first node that waited waits by a bound of its own, or was left out.
    Raised,
    /// Its children wait in its place. Each plan without conflict costs at least so much.
    Expanded(u64),
    /// There is the answer.
    Ended(Answer),
}

/// Takes the first node that waits. Its plan is the answer if that has no conflict; else it waits by a bound of its own, where
/// that is above what was known, or is left out, or its children wait in its place. Where none waits there is no plan.
pub(crate) fn turn(
    waiting: &mut BTreeMap<Key, WaitingNode>,
    paths: &mut OwnPaths<'_>,
    bounds: &mut NodeBounds<'_>,
) -> Result<Outcome, NoMemory>
    requires paths { paths.old ≡ bounds.old.problem }
    requires enough { IsEnough bounds.old.problem bounds.old.most }
    requires covering { IsCovering bounds.old.problem bounds.old.most waiting.old.entries }
    ensures paths { paths.new ≡ paths.old }
    ensures bounds { bounds.new ≡ bounds.old }
    ensures turn { IfOk result (IsTurn bounds.old.problem bounds.old.most waiting.old.entries waiting.new.entries) }
{
    let Some((key, first)) = waiting.pop_first() else {
        let bound = bounds.problem().bound();
        return Ok(Outcome::Ended(Answer::None { bound }));
    };
    if first.node.conflict().is_none() {
        let plan = first.node.plan(bounds.alloc())?;
        let stated = key.cost;
        return Ok(Outcome::Ended(Answer::Plan { plan, stated }));
    }
    let known = LowerBound {
        cost: key.cost,
        depth: key.depth,
    };
    if first.stage.is_own() {
        return leave_or_expand(waiting, paths, bounds, known, first);
    }
    let found = bounds.of(paths, &first.node, first.stage, known, &first.groups)?;
    let raised = known.raised(found.bound);
    let entry = first.by_groups(found.groups);
    if raised == known {
        return leave_or_expand(waiting, paths, bounds, known, entry);
    }
    admit(bounds.alloc(), bounds.most(), waiting, raised, entry)?;
    Ok(Outcome::Raised)
}

/// Leaves a node out, where it is found that no solution that is looked for is below it, or puts its children in.
fn leave_or_expand(
    waiting: &mut BTreeMap<Key, WaitingNode>,
    paths: &mut OwnPaths<'_>,
    bounds: &mut NodeBounds<'_>,
    known: LowerBound,
    entry: WaitingNode,
) -> Result<Outcome, NoMemory>
    requires paths { paths.old ≡ bounds.old.problem }
    requires node { IsBranching bounds.old.problem entry.node }
    ensures paths { paths.new ≡ paths.old }
    ensures bounds { bounds.new ≡ bounds.old }
    ensures outcome { IfOk result (IsLeftOrExpanded bounds.old.problem bounds.old.most known entry waiting.old.entries waiting.new.entries) }
{
    if bounds.hold_none(paths, &entry.node, known.cost)? {
        return Ok(Outcome::Raised);
    }
    let least = known.cost.min(u64::from(bounds.problem().bound()) + 1);
    expand(waiting, paths, bounds, known, entry)?;
    Ok(Outcome::Expanded(least))
}

/// Puts the children of a node in, of which this bound and what is known of its groups hold.
fn expand(
    waiting: &mut BTreeMap<Key, WaitingNode>,
    paths: &mut OwnPaths<'_>,
    bounds: &NodeBounds<'_>,
    known: LowerBound,
    entry: WaitingNode,
) -> Result<(), NoMemory>
    requires paths { paths.old ≡ bounds.now.problem }
    requires node { IsBranching bounds.now.problem entry.node }
    ensures paths { paths.new ≡ paths.old }
    ensures expands { OnOk result (Expands bounds.now.problem bounds.now.most known entry waiting.old.entries waiting.new.entries) }
{
    let WaitingNode {
        node,
        stage: _stage,
        groups,
    } = entry;
    let node = node.share_changes();
    let (left, right) = paths.both(bounds.problem(), &node)?;
    admit_child(bounds.alloc(), bounds.most(), waiting, known, &groups, left)?;
    admit_child(
        bounds.alloc(),
        bounds.most(),
        waiting,
        known,
        &groups,
        right,
    )?;
    Ok(())
}
