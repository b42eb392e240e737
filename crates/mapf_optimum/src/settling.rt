//! Which paths of the same costs the agents take: those with few conflicts.

ghost use Rattle.std.specs.Prelude.{◌≡◌, ◌<◌, length, IfOk, OnOk};
ghost use Rattle.mapf_optimum.specs.FreeTree.{HaveAllowedPaths};
ghost use Rattle.mapf_optimum.specs.Groups.{alone};

use crate::group_bound::GroupBound;
use crate::guesses::{
    Occupancy, add_conflicts, are_better, conflicts_without, hide, partners, show,
};
use crate::other_paths::accept;
use crate::part::{Part, all_below};
use mapf_grid::NoMemory;
use mapf_low::Constraints;
use mapf_plan::{Conflict, Path};
use std::alloc::Global;

/// How many times agents choose anew since another one did, at most.
const MOST_ROUNDS: u32 = 4;

/// The agent that changed, or each in turn where there is none and conflicts aren't known, takes another path of the same cost with few
/// conflicts, and then those that collide do, if they have fewer by that. The conflicts are those of the paths then, if they were those
/// of the agents that didn't change before.
pub(crate) fn settle(
    alloc: Global,
    part: &Part<'_, '_>,
    sets: &[Constraints],
    paths: &mut Vec<Path>,
    groups: &[GroupBound],
    changed: Option<usize>,
    is_known: bool,
    conflicts: &mut Vec<Conflict>,
    occupancy: &mut Occupancy,
) -> Result<(), NoMemory>
    requires sets { length sets.now ≡ length (alone part.now).inst.starts }
    requires paths { HaveAllowedPaths (alone part.now) sets.now paths.old.items }
    ensures { OnOk result (HaveAllowedPaths (alone part.now) sets.now paths.new.items) }
{
    let is_new = first_to_settle(alloc, part, paths, changed, is_known, occupancy)?;
    for agent in &is_new {
        settle_one(alloc, part, sets, paths, *agent, conflicts, occupancy)?;
    }
    let who = if is_new.is_empty() {
        all_below(alloc, paths.len())?
    } else {
        is_new
    };
    settle_partners(alloc, part, sets, paths, groups, who, conflicts, occupancy)
}

/// Shows the paths, and answers who settles first.
fn first_to_settle(
    alloc: Global,
    part: &Part<'_, '_>,
    paths: &[Path],
    changed: Option<usize>,
    is_known: bool,
    occupancy: &mut Occupancy,
) -> Result<Vec<usize>, NoMemory> {
    let mut first = Vec::new(alloc);
    for (agent, path) in paths.iter().enumerate() {
        show(part, agent, path, occupancy)?;
    }
    if let Some(agent) = changed {
        first.push(agent)?;
        return Ok(first);
    }
    if is_known {
        return Ok(first);
    }
    // The first one has nobody to avoid.
    for agent in 1..paths.len() {
        hide(part, agent, occupancy);
        first.push(agent)?;
    }
    Ok(first)
}

/// Those that collide with these agents take other paths of the same costs, if they have fewer conflicts by that.
pub(crate) fn settle_partners(
    alloc: Global,
    part: &Part<'_, '_>,
    sets: &[Constraints],
    paths: &mut Vec<Path>,
    groups: &[GroupBound],
    agents: Vec<usize>,
    conflicts: &mut Vec<Conflict>,
    occupancy: &mut Occupancy,
) -> Result<(), NoMemory>
    requires sets { length sets.now ≡ length (alone part.now).inst.starts }
    requires paths { HaveAllowedPaths (alone part.now) sets.now paths.old.items }
    ensures { OnOk result (HaveAllowedPaths (alone part.now) sets.now paths.new.items) }
{
    let mut is_new = agents;
    for _round in 0..MOST_ROUNDS {
        let may_change = partners(alloc, conflicts, &is_new)?;
        is_new = settle_again(
            alloc,
            part,
            sets,
            paths,
            groups,
            &may_change,
            conflicts,
            occupancy,
        )?;
    }
    Ok(())
}

/// Those agents choose anew. Answers who took another path.
fn settle_again(
    alloc: Global,
    part: &Part<'_, '_>,
    sets: &[Constraints],
    paths: &mut Vec<Path>,
    groups: &[GroupBound],
    agents: &[usize],
    conflicts: &mut Vec<Conflict>,
    occupancy: &mut Occupancy,
) -> Result<Vec<usize>, NoMemory>
    requires sets { length sets.now ≡ length (alone part.now).inst.starts }
    requires paths { HaveAllowedPaths (alone part.now) sets.now paths.old.items }
    ensures { OnOk result (HaveAllowedPaths (alone part.now) sets.now paths.new.items) }
{
    let mut is_new = Vec::new(alloc);
    for agent in agents {
        if settle_better(
            alloc, part, sets, paths, groups, *agent, conflicts, occupancy,
        )? {
            is_new.push(*agent)?;
        }
    }
    Ok(is_new)
}

/// Each agent in turn takes a path of the same cost with the fewest collisions that is found, where none has a conflict.
pub(crate) fn settle_each(
    alloc: Global,
    part: &Part<'_, '_>,
    sets: &[Constraints],
    paths: &mut Vec<Path>,
    conflicts: &mut Vec<Conflict>,
    occupancy: &mut Occupancy,
) -> Result<(), NoMemory>
    requires sets { length sets.now ≡ length (alone part.now).inst.starts }
    requires paths { HaveAllowedPaths (alone part.now) sets.now paths.old.items }
    ensures { OnOk result (HaveAllowedPaths (alone part.now) sets.now paths.new.items) }
{
    for agent in 0..paths.len() {
        settle_one(alloc, part, sets, paths, agent, conflicts, occupancy)?;
    }
    Ok(())
}

/// The agent takes a path of the same cost with the fewest collisions that is found, and its conflicts are added.
fn settle_one(
    alloc: Global,
    part: &Part<'_, '_>,
    sets: &[Constraints],
    paths: &mut Vec<Path>,
    agent: usize,
    conflicts: &mut Vec<Conflict>,
    occupancy: &mut Occupancy,
) -> Result<(), NoMemory>
    requires sets { length sets.now ≡ length (alone part.now).inst.starts }
    requires paths { HaveAllowedPaths (alone part.now) sets.now paths.old.items }
    ensures { OnOk result (HaveAllowedPaths (alone part.now) sets.now paths.new.items) }
{
    if let Some(path) = proposed(alloc, part, sets, paths, agent, occupancy)? {
        let _is_new = accept(part, sets, paths, agent, path);
    }
    if let Some(path) = paths.get(agent) {
        add_conflicts(alloc, part, agent, path, conflicts, occupancy)?;
        show(part, agent, path, occupancy)?;
    }
    Ok(())
}

/// A path of the agent at the cost of its own, with few conflicts; its own is taken out of the table.
fn proposed(
    alloc: Global,
    part: &Part<'_, '_>,
    sets: &[Constraints],
    paths: &[Path],
    agent: usize,
    occupancy: &mut Occupancy,
) -> Result<Option<Path>, NoMemory>
    requires { length sets.now ≡ length (alone part.now).inst.starts }
{
    hide(part, agent, occupancy);
    if agent >= paths.len() || agent >= sets.len() {
        return Ok(None);
    }
    let Some(number) = part.agents().get(agent) else {
        return Ok(None);
    };
    let cost = paths[agent].cost();
    if cost > part.bound() {
        return Ok(None);
    }
    let stands = part.agent(agent, &sets[agent], cost);
    let key = sets[agent].mixed_into(u64::from(cost) << 16 | *number as u64);
    occupancy.few_conflicts(alloc, key, &stands, part.agents())
}

/// The agent takes another path of the same cost, if it has fewer conflicts by that and no more with its group, and then it says so.
fn settle_better(
    alloc: Global,
    part: &Part<'_, '_>,
    sets: &[Constraints],
    paths: &mut Vec<Path>,
    groups: &[GroupBound],
    agent: usize,
    conflicts: &mut Vec<Conflict>,
    occupancy: &mut Occupancy,
) -> Result<bool, NoMemory>
    requires sets { length sets.now ≡ length (alone part.now).inst.starts }
    requires paths { HaveAllowedPaths (alone part.now) sets.now paths.old.items }
    ensures { OnOk result (HaveAllowedPaths (alone part.now) sets.now paths.new.items) }
{
    let mut others = conflicts_without(alloc, conflicts, agent)?;
    if others.len() == conflicts.len() {
        return Ok(false);
    }
    let mut is_better = false;
    if let Some(path) = proposed(alloc, part, sets, paths, agent, occupancy)? {
        add_conflicts(alloc, part, agent, &path, &mut others, occupancy)?;
        if are_better(&others, conflicts, groups, agent) && accept(part, sets, paths, agent, path) {
            *conflicts = others;
            is_better = true;
        }
    }
    if let Some(path) = paths.get(agent) {
        show(part, agent, path, occupancy)?;
    }
    Ok(is_better)
}
