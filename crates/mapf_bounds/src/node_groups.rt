//! Groups of a node's agents, the least dear ones first.

ghost use Rattle.std.specs.Prelude.{◌≡◌, ◌<◌, ◌≤◌, ℕ, ⊤, ◌∷◌, length, map, slice_index, IfOk, MatchOption, OnOk};
ghost use Rattle.mapf_optimum.specs.FreeTree.{IsGroup};
ghost use Rattle.mapf_plan.specs.Path.{cost};
ghost use Rattle.mapf_bounds.specs.Groups.{AreSetsOf, Follow, FollowBoth};

use mapf_grid::NoMemory;
use mapf_low::Constraints;
use mapf_optimum::GroupBound;
use mapf_plan::{AgentPaths, PairConflict};
use mapf_tree::Node;
use std::alloc::Global;
use std::sync::Arc;

/// What each agent's path costs.
pub(crate) fn costs_of<P: AgentPaths>(alloc: Global, paths: &P) -> Result<Vec<u32>, NoMemory>
    ensures { IfOk result (λ costs. costs.items ≡ map cost (P.paths paths.now)) }
{
    let mut costs = Vec::with_capacity(alloc, paths.agents())?;
    for agent in 0..paths.agents() {
        costs.push_reserved(paths.path(agent).cost());
    }
    Ok(costs)
}

/// What some agents are forbidden at a node.
pub(crate) fn sets_of(
    alloc: Global,
    node: &Node,
    agents: &[usize],
) -> Result<Vec<Constraints>, NoMemory>
    requires { (k : ℕ) → k < length agents.now → slice_index agents.now k < length node.now.plan }
    ensures { IfOk result (λ sets. AreSetsOf node.now agents.now sets.items) }
{
    let mut sets = Vec::with_capacity(alloc, agents.len())?;
    for agent in agents {
        sets.push(node.constraints(alloc, *agent)?)?;
    }
    Ok(sets)
}

/// The two agents of a conflict, if they are in order and these paths are theirs.
pub(crate) fn two_of<P: AgentPaths>(
    alloc: Global,
    paths: &P,
    conflict: &PairConflict,
) -> Result<Option<Vec<usize>>, NoMemory>
    ensures { IfOk result (λ found. MatchOption found ⊤ (λ agents. IsGroup (length (P.paths paths.now)) agents.items
        × (0 < length agents.items))) }
{
    let (first, second) = (usize::from(conflict.first), usize::from(conflict.second));
    if first >= second || second >= paths.agents() {
        return Ok(None);
    }
    Ok(Some(vec![in alloc; first, second]?))
}

/// Whether the last turn of a node's name gave one of the conflict's agents another path.
pub(crate) fn is_changed(node: &Node, conflict: &PairConflict) -> bool {
    let Some(turn) = node.key().depth.checked_sub(1) else {
        return true;
    };
    match node.change(turn) {
        Some((agent, _constraint, _path)) => {
            agent == usize::from(conflict.first) || agent == usize::from(conflict.second)
        }
        None => true,
    }
}

/// Those of these groups that cost more than their agents alone, where each agent costs so much.
fn dear_groups(
    alloc: Global,
    groups: &[GroupBound],
    costs: &[u32],
) -> Result<Vec<GroupBound>, NoMemory>
    ensures { IfOk result (λ kept. Follow groups.now kept.items) }
{
    let mut kept = Vec::with_capacity(alloc, groups.len())?;
    for place in 0..groups.len() {
        let group = &groups[groups.len() - 1 - place];
        if group.surplus(costs) > 0 {
            let copy = GroupBound::of(alloc, &group.agents, group.least, false)?;
            put(&mut kept, copy, costs)?;
        }
    }
    Ok(kept)
}

/// The dear ones of the groups that were known, with new ones; if none is new, those that were known.
pub(crate) fn with_new(
    alloc: Global,
    known: &Arc<Vec<GroupBound>>,
    new: Vec<GroupBound>,
    costs: &[u32],
) -> Result<Arc<Vec<GroupBound>>, NoMemory>
    ensures { IfOk result (λ all. FollowBoth known.now.value.items new.items all.value.items) }
{
    if new.is_empty() {
        return Ok(Arc::try_clone(known)?);
    }
    let mut all = dear_groups(alloc, known, costs)?;
    for group in new {
        put(&mut all, group, costs)?;
    }
    Ok(Arc::new(alloc, all)?)
}

/// Puts a group in before those that cost at least so much more than their agents alone as it does.
fn put(groups: &mut Vec<GroupBound>, group: GroupBound, costs: &[u32]) -> Result<(), NoMemory>
    ensures { OnOk result (Follow (group ∷ groups.old.items) groups.new.items) }
{
    let place = place_for(groups, group.surplus(costs), costs);
    match groups.insert(place, group) {
        Ok(()) => Ok(()),
        Err(_refused) => Err(NoMemory),
    }
}

/// The place of the first group that costs at least so much more than its agents alone, or behind all.
fn place_for(groups: &[GroupBound], surplus: u64, costs: &[u32]) -> usize
    ensures { result ≤ length groups.now }
{
    for place in 0..groups.len() {
        if groups[place].surplus(costs) >= surplus {
            return place;
        }
    }
    groups.len()
}
