//! Agents that take other paths: least ones, or those that were found of a group.

ghost use Rattle.std.specs.Prelude.{◌≡◌, ℕ, ◌<◌, ◌≤◌, length, slice_index_or, OnOk};
ghost use Rattle.mapf_plan.specs.Path.{cost};
ghost use Rattle.mapf_plan.specs.Plan.{path_of};
ghost use Rattle.mapf_optimum.specs.FreeTree.{AreLeastCosts, HaveAllowedPaths};
ghost use Rattle.mapf_optimum.specs.Groups.{alone};

use crate::allowed::is_allowed;
use crate::part::Part;
use mapf_grid::NoMemory;
use mapf_low::Constraints;
use mapf_plan::Path;
use std::alloc::Global;

/// Each agent whose path costs more than a least one takes a least one. Answers who did.
pub(crate) fn take_least_paths(
    alloc: Global,
    part: &Part<'_, '_>,
    sets: &[Constraints],
    costs: &[u32],
    paths: &mut Vec<Path>,
) -> Result<Vec<usize>, NoMemory>
    requires sets { length sets.now ≡ length (alone part.now).inst.starts }
    requires costs { AreLeastCosts (alone part.now) sets.now costs.now }
    requires paths { HaveAllowedPaths (alone part.now) sets.now paths.old.items }
    ensures paths { OnOk result (HaveAllowedPaths (alone part.now) sets.now paths.new.items) }
    ensures least { OnOk result ((i : ℕ) → i < length paths.new.items → cost (path_of paths.new.items i) ≤ slice_index_or costs.now i 0) }
{
    let mut new = Vec::new(alloc);
    for agent in 0..paths.len() {
        if paths[agent].cost() > costs[agent] {
            if let Some(path) = part.least_path(
                alloc,
                agent,
                &sets[agent],
                part.bound(),
                costs[agent],
            )? {
                paths[agent] = path;
                new.push(agent)?;
            }
        }
    }
    Ok(new)
}

/// The agents of a group take the paths that were found, if there are some and each may take its own, and says whether they did.
pub(crate) fn adopt(
    part: &Part<'_, '_>,
    sets: &[Constraints],
    agents: &[usize],
    found: Option<Vec<Path>>,
    paths: &mut Vec<Path>,
) -> bool
    requires sets { length sets.now ≡ length (alone part.now).inst.starts }
    requires paths { HaveAllowedPaths (alone part.now) sets.now paths.old.items }
    ensures { HaveAllowedPaths (alone part.now) sets.now paths.new.items }
{
    let Some(found) = found else {
        return false;
    };
    let mut is_solved = found.len() == agents.len();
    for (agent, path) in agents.iter().zip(found) {
        if !accept(part, sets, paths, *agent, path) {
            is_solved = false;
        }
    }
    is_solved
}

/// The agent takes the path, if it may, and then it says so.
pub(crate) fn accept(
    part: &Part<'_, '_>,
    sets: &[Constraints],
    paths: &mut Vec<Path>,
    agent: usize,
    path: Path,
) -> bool
    requires sets { length sets.now ≡ length (alone part.now).inst.starts }
    requires paths { HaveAllowedPaths (alone part.now) sets.now paths.old.items }
    ensures { HaveAllowedPaths (alone part.now) sets.now paths.new.items }
{
    if agent >= sets.len() || !is_allowed(part, agent, &sets[agent], &path) {
        return false;
    }
    paths[agent] = path;
    true
}
