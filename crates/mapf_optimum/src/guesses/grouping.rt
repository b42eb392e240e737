//! Which agents are asked for together.

use crate::group_bound::GroupBound;
use mapf_grid::NoMemory;
use mapf_plan::Conflict;
use mapf_tree::{Side, agent_of};
use std::alloc::Global;

/// How many agents are in a group, at most.
const MOST_AGENTS: usize = 10;

/// The agents that are asked for next, of so many: a hint, or else those of two groups that collide, fewest first; none of these is in vain.
pub(crate) fn next_group(
    alloc: Global,
    hints: &[Vec<usize>],
    groups: &[GroupBound],
    conflicts: &[Conflict],
    count: usize,
    vain: &[Vec<usize>],
) -> Result<Option<Vec<usize>>, NoMemory> {
    for hint in hints {
        if !is_in(vain, hint) && !is_solved(groups, hint) {
            return Ok(Some(Vec::from_slice(alloc, hint)?));
        }
    }
    let mut best: Option<Vec<usize>> = None;
    for conflict in conflicts {
        let (one, other) = (
            agent_of(conflict, Side::Left),
            agent_of(conflict, Side::Right),
        );
        let mut both = Vec::new(alloc);
        add_group(groups, one, &mut both)?;
        if both.contains(&other) {
            continue;
        }
        add_group(groups, other, &mut both)?;
        both.sort_unstable();
        let most = best
            .as_ref()
            .map_or(count.min(MOST_AGENTS + 1), |known| known.len());
        if both.len() < most && !is_in(vain, &both) {
            best = Some(both);
        }
    }
    Ok(best)
}

/// Adds the agents of the solved group that the agent is in, or the agent alone.
fn add_group(groups: &[GroupBound], agent: usize, agents: &mut Vec<usize>) -> Result<(), NoMemory> {
    for group in groups {
        if group.is_solved && group.agents.contains(&agent) {
            for member in &group.agents {
                agents.push(*member)?;
            }
            return Ok(());
        }
    }
    agents.push(agent)?;
    Ok(())
}

/// Whether these agents are one of the lists.
fn is_in(lists: &[Vec<usize>], agents: &[usize]) -> bool {
    lists.iter().any(|known| known.as_slice() == agents)
}

/// Whether the plan of a group that has these agents is shown.
fn is_solved(groups: &[GroupBound], agents: &[usize]) -> bool {
    groups.iter().any(|group| {
        group.is_solved && agents.iter().all(|agent| group.agents.contains(agent))
    })
}

/// The solved ones of these groups that have some of these agents and no others, by their places among these.
pub(crate) fn hints_in(
    alloc: Global,
    groups: &[GroupBound],
    agents: &[usize],
) -> Result<Vec<Vec<usize>>, NoMemory> {
    let mut hints = Vec::new(alloc);
    for group in groups {
        if group.is_solved && group.agents.len() < agents.len() {
            let mut places = Vec::new(alloc);
            for agent in &group.agents {
                if let Ok(place) = agents.binary_search(agent) {
                    places.push(place)?;
                }
            }
            if places.len() == group.agents.len() {
                hints.push(places)?;
            }
        }
    }
    Ok(hints)
}
