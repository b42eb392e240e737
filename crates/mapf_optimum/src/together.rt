//! What two to five agents cost together, by all joint places: where they can be at once, time step by time step.

ghost use Rattle.std.specs.Prelude.{◌≡◌, ℕ, ◌+◌, ◌<◌, ◌≤◌, ◌^◌, List, length, sum_by, IfOk, OnOk};
ghost use Rattle.mapf_plan.specs.Path.{cost};
ghost use Rattle.mapf_plan.specs.Plan.{path_of, plan_cost};
ghost use Rattle.mapf_optimum.specs.Together.{Agent, HasNoPlan, IsPlanOf};
ghost use Rattle.mapf_optimum.specs.PlaceNumbers.{AllFound, AllGetMore, AllLookedOn, AreKnownOf, number_in};

mod agent;
mod agent_places;
mod joint;
mod joint_places;
mod place;
mod place_table;
mod start;
mod steps;

use crate::group_costs::Found;
pub(crate) use agent::Agent;
use agent_places::AgentPlaces;
use joint::{are_home, joint_of};
use joint_places::JointPlaces;
use mapf_grid::{Cell, NoMemory};
use mapf_plan::{MOST_CELLS, Path, Rule};
use place::Numbers;
pub(crate) use place::{MOST_TOGETHER, Place};
use start::{begin, first_places};
use std::alloc::Global;
use steps::{Terms, go_on};

/// What was found of the plans of some agents that cost no more than a total.
#[derive(Drop)]
pub(crate) enum Within {
    /// There is none.
    Nothing,
    /// One, maybe: a guess.
    Plan(Vec<Path>),
    /// It isn't known.
    Unknown,
}

/// What these agents cost together at least, where it is known that they cost so much, and a plan that costs so much, if it is found
/// by going on from so many joint places.
pub(crate) fn cost_together(
    alloc: Global,
    rule: Rule,
    agents: &[Agent],
    least: u64,
    bound: u32,
    budget: usize,
) -> Result<Found, NoMemory>
    requires few { length agents.now ≤ MOST_TOGETHER }
    requires least { (plan : List (List ℕ)) (total : ℕ) → IsPlanOf rule agents.now total plan → least ≤ plan_cost plan }
    ensures { IfOk result (λ found. (plan : List (List ℕ)) (total : ℕ) → IsPlanOf rule agents.now total plan
        → found.least ≤ plan_cost plan) }
{
    let mut left = budget;
    let mut terms = Terms {
        rule,
        total: least,
        bound,
    };
    let mut places = first_places(alloc, agents, bound)?;
    while terms.total <= u64::from(bound) {
        match plan_within(alloc, terms, agents, &mut places, &mut left)? {
            Within::Nothing => terms.total += 1,
            Within::Plan(paths) => {
                return Ok(Found {
                    least: terms.total,
                    plan: Some(paths),
                });
            }
            Within::Unknown => break,
        }
    }
    Ok(Found {
        least: terms.total,
        plan: None,
    })
}

/// Looks for a plan of these agents that costs no more than the total, by all joint places, deep first.
fn plan_within(
    alloc: Global,
    terms: Terms,
    agents: &[Agent],
    places: &mut Vec<AgentPlaces>,
    left: &mut usize,
) -> Result<Within, NoMemory>
    requires few { length agents.now ≤ MOST_TOGETHER }
    requires within { terms.total ≤ terms.bound }
    requires places { AreKnownOf agents.now terms.bound places.old.items }
    ensures none { IfOk result (HasNoPlan terms.rule agents.now terms.total) }
    ensures places { OnOk result (AreKnownOf agents.now terms.bound places.new.items) }
{
    let mosts = mosts_within(agents, terms.total);
    let mut known = begin(alloc, places)?;
    let mut next = Vec::new(alloc);
    let mut cheap = Vec::new(alloc);
    for _joint in 0..*left {
        let Some(number) = known.take() else {
            return Ok(Within::Nothing);
        };
        let Some(numbers) = known.at(number) else {
            return Ok(Within::Unknown);
        };
        let Some(joint) = joint_of(places, &numbers) else {
            return Ok(Within::Unknown);
        };
        if are_home(&joint, agents.len()) {
            return traced(alloc, places, &known, number);
        }
        *left = left.saturating_sub(1);
        look_on(alloc, agents, places, &numbers, &mosts, &mut next)?;
        go_on(
            alloc, terms, places, number, &numbers, &joint, &mut known, &mut cheap,
        )?;
    }
    Ok(Within::Unknown)
}

/// Looks for the places to which each agent may go on.
fn look_on(
    alloc: Global,
    agents: &[Agent],
    places: &mut Vec<AgentPlaces>,
    numbers: &Numbers,
    mosts: &[u32; MOST_TOGETHER],
    next: &mut Vec<Place>,
) -> Result<(), NoMemory>
    requires few { length agents.now ≤ MOST_TOGETHER }
    requires each { length places.old.items ≡ length agents.now }
    requires looked { AllFound agents.now places.old.items }
    ensures more { OnOk result (AllGetMore places.old.items places.new.items) }
    ensures looked { OnOk result (AllFound agents.now places.new.items) }
    ensures there { OnOk result (AllLookedOn agents.now places.new.items numbers.now mosts.now) }
{
    for agent in 0..agents.len() {
        places[agent].look_on(alloc, &agents[agent], numbers[agent], mosts[agent], next)?;
    }
    Ok(())
}

/// What each agent's path may cost, where all cost no more than the total together.
fn mosts_within(agents: &[Agent], total: u64) -> [u32; MOST_TOGETHER]
    requires few { length agents.now ≤ MOST_TOGETHER }
    requires small { total < 2 ^ 32 }
    ensures { (rule : Rule) (plan : List (List ℕ)) → IsPlanOf rule agents.now total plan
        → (i : ℕ) → i < length agents.now → cost (path_of plan i) ≤ number_in result i }
{
    let left = total.saturating_sub(least_of(agents));
    let mut mosts = [0; MOST_TOGETHER];
    for agent in 0..agents.len() {
        let most = u64::from(agents[agent].least()).saturating_add(left);
        mosts[agent] = most.min(u64::from(u32::MAX)) as u32;
    }
    mosts
}

/// What all agents' paths cost at least.
fn least_of(agents: &[Agent]) -> u64
    ensures { result ≤ sum_by (λ (a : Agent). a.least) agents.now }
{
    let mut sum = 0_u64;
    for agent in agents {
        sum = sum.saturating_add(u64::from(agent.least()));
    }
    sum
}

/// The paths of agents that lead to a joint place, if they are found.
fn traced(
    alloc: Global,
    places: &[AgentPlaces],
    known: &JointPlaces,
    end: usize,
) -> Result<Within, NoMemory>
    ensures { IfOk result (λ found. (rule : Rule) (agents : List Agent) (total : ℕ) → HasNoPlan rule agents total found) }
{
    let mut paths = Vec::new(alloc);
    for agent in 0..places.len() {
        let Some(path) = path_to(alloc, &places[agent], agent, known, end)? else {
            return Ok(Within::Unknown);
        };
        paths.push(path)?;
    }
    Ok(Within::Plan(paths))
}

/// The path of one of them, which has arrived there.
fn path_to(
    alloc: Global,
    places: &AgentPlaces,
    agent: usize,
    known: &JointPlaces,
    end: usize,
) -> Result<Option<Path>, NoMemory> {
    let mut cells: Vec<Cell> = Vec::new(alloc);
    let mut number = end;
    for _cell in 0..MOST_CELLS {
        let Some(numbers) = known.at(number) else {
            break;
        };
        let Some(place) = numbers.get(agent) else {
            break;
        };
        let Some(here) = places.at(*place) else {
            break;
        };
        if here.place.is_home {
            cells.clear();
        }
        cells.push(here.place.cell)?;
        let Some(before) = known.before(number) else {
            break;
        };
        number = before;
    }
    if cells.is_empty() || cells.len() > MOST_CELLS {
        return Ok(None);
    }
    cells.reverse();
    Ok(Some(Path::of(cells)))
}
