//! What the agents have: their paths, and their sets of constraints.

ghost use Rattle.std.specs.Prelude.{◌≡◌, ℕ, ◌<◌, ◌≤◌, [], length, map, replicate, slice_index, slice_set, sum_by, IfOk};
ghost use Rattle.mapf_grid.specs.declared.instance.TheConstants.{MOST_AGENTS};
ghost use Rattle.mapf_plan.specs.Path.{cost};
ghost use Rattle.mapf_optimum.specs.FreeTree.{paths_in};
ghost use Rattle.mapf_optimum.specs.Groups.{costs_in, sets_in};

use mapf_grid::NoMemory;
use mapf_low::Constraints;
use mapf_plan::Path;
use std::alloc::Global;

/// Equal paths.
pub(crate) fn copy_paths(alloc: Global, paths: &[Path]) -> Result<Vec<Path>, NoMemory>
    ensures { IfOk result (λ copies. copies.items ≡ paths.now) }
{
    let mut copies = Vec::with_capacity(alloc, paths.len())?;
    for path in paths {
        copies.push_reserved(path.copy(alloc)?);
    }
    Ok(copies)
}

/// Equal sets.
pub(crate) fn copy_sets(alloc: Global, sets: &[Constraints]) -> Result<Vec<Constraints>, NoMemory>
    ensures { IfOk result (λ copies. copies.items ≡ sets.now) }
{
    let mut copies = Vec::with_capacity(alloc, sets.len())?;
    for set in sets {
        copies.push_reserved(set.copy()?);
    }
    Ok(copies)
}

/// So many empty sets.
pub(crate) fn empty_sets(alloc: Global, agents: usize) -> Result<Vec<Constraints>, NoMemory>
    ensures { IfOk result (λ sets. sets.items ≡ replicate agents []) }
{
    let mut sets = Vec::with_capacity(alloc, agents)?;
    for _agent in 0..agents {
        sets.push_reserved(Constraints::new(alloc));
    }
    Ok(sets)
}

/// The paths of some agents.
pub(crate) fn some_paths(
    alloc: Global,
    paths: &[Path],
    agents: &[usize],
) -> Result<Vec<Path>, NoMemory>
    requires { (k : ℕ) → k < length agents.now → slice_index agents.now k < length paths.now }
    ensures { IfOk result (λ some. some.items ≡ paths_in paths.now agents.now) }
{
    let mut some = Vec::new(alloc);
    for agent in agents {
        some.push(paths[*agent].copy(alloc)?)?;
    }
    Ok(some)
}

/// The sets of some agents.
pub(crate) fn some_sets(
    alloc: Global,
    sets: &[Constraints],
    agents: &[usize],
) -> Result<Vec<Constraints>, NoMemory>
    requires { (k : ℕ) → k < length agents.now → slice_index agents.now k < length sets.now }
    ensures { IfOk result (λ some. some.items ≡ sets_in sets.now agents.now) }
{
    let mut some = Vec::new(alloc);
    for agent in agents {
        some.push(sets[*agent].copy()?)?;
    }
    Ok(some)
}

/// The costs of some agents.
pub(crate) fn some_costs(
    alloc: Global,
    costs: &[u32],
    agents: &[usize],
) -> Result<Vec<u32>, NoMemory>
    requires { (k : ℕ) → k < length agents.now → slice_index agents.now k < length costs.now }
    ensures { IfOk result (λ some. some.items ≡ costs_in costs.now agents.now) }
{
    let mut some = Vec::new(alloc);
    for agent in agents {
        some.push(costs[*agent])?;
    }
    Ok(some)
}

/// What these paths cost, one by one.
pub(crate) fn costs_of(alloc: Global, paths: &[Path]) -> Result<Vec<u32>, NoMemory>
    ensures { IfOk result (λ costs. costs.items ≡ map cost paths.now) }
{
    let mut costs = Vec::new(alloc);
    for path in paths {
        costs.push(path.cost())?;
    }
    Ok(costs)
}

/// The costs, where this agent has another one.
pub(crate) fn costs_with(
    alloc: Global,
    costs: &[u32],
    agent: usize,
    cost: u32,
) -> Result<Vec<u32>, NoMemory>
    requires { agent < length costs.now }
    ensures { IfOk result (λ new. new.items ≡ slice_set costs.now agent cost) }
{
    let mut new = Vec::from_slice(alloc, costs)?;
    new[agent] = cost;
    Ok(new)
}

/// What all agents cost alone, added up.
pub(crate) fn sum_of(costs: &[u32]) -> u64
    requires { length costs.now ≤ MOST_AGENTS }
    ensures { result ≡ sum_by (λ c. c) costs.now }
{
    let mut sum = 0;
    for cost in costs {
        sum += u64::from(*cost);
    }
    sum
}
