//! The conflicts of a plan.

use crate::group_bound::GroupBound;
use crate::guesses::Occupancy;
use crate::part::Part;
use mapf_grid::NoMemory;
use mapf_plan::{Conflict, Path};
use mapf_tree::{Side, agent_of};
use std::alloc::Global;

/// Those of these conflicts that the agent isn't in.
pub(crate) fn conflicts_without(
    alloc: Global,
    conflicts: &[Conflict],
    agent: usize,
) -> Result<Vec<Conflict>, NoMemory> {
    let mut kept = Vec::with_capacity(alloc, conflicts.len())?;
    for conflict in conflicts {
        let (first, second) = agents_of(conflict);
        if first != agent && second != agent {
            kept.push(*conflict)?;
        }
    }
    Ok(kept)
}

/// Whether an agent's path is better by which these are the conflicts: there are fewer, and no more of the agent with its solved group.
pub(crate) fn are_better(
    new: &[Conflict],
    old: &[Conflict],
    groups: &[GroupBound],
    agent: usize,
) -> bool {
    new.len() < old.len()
        && conflicts_in_group(new, groups, agent) <= conflicts_in_group(old, groups, agent)
}

/// How many of these conflicts the agent has with others of a solved group.
fn conflicts_in_group(conflicts: &[Conflict], groups: &[GroupBound], agent: usize) -> usize {
    let mut count = 0_usize;
    for group in groups {
        if group.is_solved && group.agents.contains(&agent) {
            for conflict in conflicts {
                let (first, second) = agents_of(conflict);
                let is_own = first == agent || second == agent;
                if is_own && group.agents.contains(&first) && group.agents.contains(&second) {
                    count = count.saturating_add(1);
                }
            }
        }
    }
    count
}

/// How many pairs of agents have one of these conflicts.
pub(crate) fn colliding_pairs(conflicts: &[Conflict]) -> usize {
    let mut count = 0_usize;
    for (place, conflict) in conflicts.iter().enumerate() {
        let pair = agents_of(conflict);
        if !conflicts
            .iter()
            .take(place)
            .any(|known| agents_of(known) == pair)
        {
            count = count.saturating_add(1);
        }
    }
    count
}

/// The two agents of a conflict, in their order.
fn agents_of(conflict: &Conflict) -> (usize, usize) {
    (
        agent_of(conflict, Side::Left),
        agent_of(conflict, Side::Right),
    )
}

/// The agents that collide with these, and these that collide, each once.
pub(crate) fn partners(
    alloc: Global,
    conflicts: &[Conflict],
    agents: &[usize],
) -> Result<Vec<usize>, NoMemory> {
    let mut found: Vec<usize> = Vec::new(alloc);
    for conflict in conflicts {
        let (one, other) = agents_of(conflict);
        if agents.contains(&one) || agents.contains(&other) {
            if !found.contains(&one) {
                found.push(one)?;
            }
            if !found.contains(&other) {
                found.push(other)?;
            }
        }
    }
    Ok(found)
}

/// Makes this the path of one of the part's agents in the table.
pub(crate) fn show(
    part: &Part<'_, '_>,
    agent: usize,
    path: &Path,
    occupancy: &mut Occupancy,
) -> Result<(), NoMemory> {
    if let Some(number) = part.agents().get(agent) {
        occupancy.set(*number, path)?;
    }
    Ok(())
}

/// One of the part's agents has no path in the table.
pub(crate) fn hide(part: &Part<'_, '_>, agent: usize, occupancy: &mut Occupancy) {
    if let Some(number) = part.agents().get(agent) {
        occupancy.take(*number);
    }
}

/// Adds the conflicts that one of the part's agents has on this path with its others, as they stand in the table.
pub(crate) fn add_conflicts(
    alloc: Global,
    part: &Part<'_, '_>,
    agent: usize,
    path: &Path,
    conflicts: &mut Vec<Conflict>,
    occupancy: &Occupancy,
) -> Result<(), NoMemory> {
    let Some(number) = part.agents().get(agent) else {
        return Ok(());
    };
    let mut found = Vec::new(alloc);
    occupancy.add_conflicts(*number, path, &mut found)?;
    for conflict in &found {
        if let Some(conflict) = among(part.agents(), conflict) {
            conflicts.push(conflict)?;
        }
    }
    Ok(())
}

/// The conflict by the places of its agents among these, if both are there.
fn among(agents: &[usize], conflict: &Conflict) -> Option<Conflict> {
    Some(match *conflict {
        Conflict::Vertex {
            time,
            first,
            second,
            cell,
        } => Conflict::Vertex {
            time,
            first: agents.binary_search(&first).ok()?,
            second: agents.binary_search(&second).ok()?,
            cell,
        },
        Conflict::Swapping {
            time,
            first,
            second,
            from,
            to,
        } => Conflict::Swapping {
            time,
            first: agents.binary_search(&first).ok()?,
            second: agents.binary_search(&second).ok()?,
            from,
            to,
        },
        Conflict::Following {
            time,
            follower,
            leader,
            cell,
        } => Conflict::Following {
            time,
            follower: agents.binary_search(&follower).ok()?,
            leader: agents.binary_search(&leader).ok()?,
            cell,
        },
    })
}

/// The conflicts of the paths, of which those of other agents are known, and shows these agents' paths.
pub(crate) fn conflicts_again(
    alloc: Global,
    part: &Part<'_, '_>,
    agents: &[usize],
    paths: &[Path],
    known: &[Conflict],
    occupancy: &mut Occupancy,
) -> Result<Vec<Conflict>, NoMemory> {
    let mut conflicts = Vec::from_slice(alloc, known)?;
    for agent in agents {
        hide(part, *agent, occupancy);
        conflicts = conflicts_without(alloc, &conflicts, *agent)?;
    }
    for agent in agents {
        if let Some(path) = paths.get(*agent) {
            add_conflicts(alloc, part, *agent, path, &mut conflicts, occupancy)?;
            show(part, *agent, path, occupancy)?;
        }
    }
    Ok(conflicts)
}

/// The conflicts that these agents have with one another, by their places.
pub(crate) fn conflicts_among(
    alloc: Global,
    conflicts: &[Conflict],
    agents: &[usize],
) -> Result<Vec<Conflict>, NoMemory> {
    let mut found = Vec::new(alloc);
    for conflict in conflicts {
        if let Some(conflict) = among(agents, conflict) {
            found.push(conflict)?;
        }
    }
    Ok(found)
}
