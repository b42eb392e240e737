//! Where agents begin together.

ghost use Rattle.std.specs.Prelude.{◌≡◌, ℕ, [], ◌<◌, ◌≤◌, List, length, IfOk, OnOk};
ghost use Rattle.mapf_optimum.specs.PlaceNumbers.{AllBegin, AreAtKnown, AreKnownOf, Grows, HaveBegun, IsSearched, number_in};

use super::agent::Agent;
use super::agent_places::AgentPlaces;
use super::joint_places::JointPlaces;
use super::place::{MOST_TOGETHER, Numbers};
use mapf_grid::NoMemory;
use std::alloc::Global;

/// The places of each agent at time 0, by paths that cost no more than the bound.
pub(crate) fn first_places(
    alloc: Global,
    agents: &[Agent],
    bound: u32,
) -> Result<Vec<AgentPlaces>, NoMemory>
    ensures { IfOk result (λ places. AreKnownOf agents.now bound places.items) }
{
    let mut places = Vec::with_capacity(alloc, agents.len())?;
    for agent in agents {
        places.push(AgentPlaces::new(alloc, agent, bound)?)?;
    }
    Ok(places)
}

/// Adds the joint places at time 0, in which this agent and those after it are each at one of their places.
fn add_first(
    alloc: Global,
    places: &[AgentPlaces],
    numbers: &mut Numbers,
    agent: usize,
    known: &mut JointPlaces,
) -> Result<(), NoMemory>
    requires agent { agent ≤ length places.now }
    requires few { length places.now ≤ MOST_TOGETHER }
    ensures grows { OnOk result (Grows known.old known.new) }
    ensures same { OnOk result ((i : ℕ) → i < agent → number_in numbers.new i ≡ number_in numbers.old i) }
    ensures has { OnOk result ((plan : List (List ℕ)) → HaveBegun plan places.now agent numbers.old → AllBegin plan places.now
        → AreAtKnown plan places.now known.new [] 0) }
{
    if agent == places.len() {
        return known.add(alloc, numbers, None);
    }
    for number in 0..places[agent].first() {
        numbers[agent] = number;
        add_first(alloc, places, numbers, agent + 1, known)?;
    }
    Ok(())
}

/// The joint places at time 0 are known, and wait.
pub(crate) fn begin(alloc: Global, places: &[AgentPlaces]) -> Result<JointPlaces, NoMemory>
    requires few { length places.now ≤ MOST_TOGETHER }
    ensures { IfOk result (λ known. (plan : List (List ℕ)) → AllBegin plan places.now → IsSearched plan places.now known) }
{
    let mut known = JointPlaces::new(alloc)?;
    let mut numbers = [0; MOST_TOGETHER];
    add_first(alloc, places, &mut numbers, 0, &mut known)?;
    Ok(known)
}
