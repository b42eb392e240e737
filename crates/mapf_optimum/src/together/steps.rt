//! One time step of some agents together.

ghost use Rattle.std.specs.Prelude.{◌≡◌, ◌⊎◌, ℕ, [], ◌+◌, ◌<◌, ◌≤◌, List, length, Contains, IsTrue, OnOk};
ghost use Rattle.mapf_optimum.specs.declared.together.place.Place.{Place};
ghost use Rattle.mapf_plan.specs.Plan.{path_of};
ghost use Rattle.mapf_optimum.specs.Together.{AreAt, ArePlan, StandsAt, place_in};
ghost use Rattle.mapf_optimum.specs.PlaceNumbers.{AreAtKnown, AreSame, GoesBy, GoesOnFrom, Grows, HaveGone, IsKnown};

use super::agent_places::AgentPlaces;
use super::joint::cost_of;
use super::joint_places::JointPlaces;
use super::place::{Joint, MOST_TOGETHER, Move, Numbers, Place};
use mapf_grid::NoMemory;
use mapf_plan::{Rule, do_steps_collide};
use std::alloc::Global;

/// By which rule agents collide, and what they may cost together: so much now, and never more than the bound.
#[derive(Clone, Copy)]
pub(crate) struct Terms {
    pub(crate) rule: Rule,
    pub(crate) total: u64,
    pub(crate) bound: u32,
}

/// A joint place from which agents go on.
#[derive(Drop)]
pub(crate) struct From<'a> {
    pub(crate) terms: Terms,
    /// The places of each agent.
    pub(crate) places: &'a [AgentPlaces],
    /// The number of the joint place.
    pub(crate) number: usize,
    pub(crate) numbers: &'a Numbers,
    pub(crate) joint: &'a Joint,
    /// What a plan costs at least in which they are there.
    pub(crate) cost: u64,
}

/// A joint place to which some agents, the first ones, have gone on.
#[derive(Drop)]
pub(crate) struct To {
    pub(crate) numbers: Numbers,
    pub(crate) joint: Joint,
}

/// Whether the agent doesn't collide, as it goes to a place, with those before it, which have gone on from one joint place to another.
fn is_apart(rule: Rule, from: &Joint, to: &Joint, agent: usize, place: &Place) -> bool
    requires { agent < MOST_TOGETHER }
    ensures { (plan : List (List ℕ)) (count total time : ℕ) → ArePlan rule count total plan → agent < count
        → AreAt plan count time from.now → AreAt plan agent (time + 1) to.now
        → StandsAt (path_of plan agent) (time + 1) place.now → IsTrue result }
{
    for other in 0..agent {
        if do_steps_collide(
            rule,
            from[other].cell,
            to[other].cell,
            from[agent].cell,
            place.cell,
        ) {
            return false;
        }
    }
    true
}

/// Adds the joint places to which this agent and those after it may go on, where a plan costs so much at least in which those before it
/// have gone on so; those that cost no more than where they come from are put into the list.
#[cycle(joint)]
fn add_from(
    alloc: Global,
    from: &From,
    to: &mut To,
    agent: usize,
    cost: u64,
    known: &mut JointPlaces,
    cheap: &mut Vec<Numbers>,
) -> Result<(), NoMemory>
    requires agent { agent < length from.now.places.now }
    requires few { length from.now.places.now ≤ MOST_TOGETHER }
    ensures grows { OnOk result (Grows known.old known.new) }
    ensures keeps { OnOk result ((x : List ℕ) → Contains cheap.old.items x → Contains cheap.new.items x) }
    ensures same { OnOk result (AreSame agent to.old to.new) }
    ensures adds { OnOk result ((plan : List (List ℕ)) (time : ℕ) →
        GoesOnFrom plan from.now.terms from.now.places.now from.now.numbers.now from.now.joint.now time
        → HaveGone plan from.now.places.now from.now.joint.now to.old agent cost (time + 1)
        → AreAtKnown plan from.now.places.now known.new cheap.new.items (time + 1)) }
{
    for next in from.places[agent].moves(from.numbers[agent]) {
        add_by(alloc, from, to, agent, cost, next, known, cheap)?;
    }
    Ok(())
}

/// Adds those to which this agent goes on by this move.
#[cycle(joint)]
fn add_by(
    alloc: Global,
    from: &From,
    to: &mut To,
    agent: usize,
    cost: u64,
    next: &Move,
    known: &mut JointPlaces,
    cheap: &mut Vec<Numbers>,
) -> Result<(), NoMemory>
    requires agent { agent < length from.now.places.now }
    requires few { length from.now.places.now ≤ MOST_TOGETHER }
    ensures grows { OnOk result (Grows known.old known.new) }
    ensures keeps { OnOk result ((x : List ℕ) → Contains cheap.old.items x → Contains cheap.new.items x) }
    ensures same { OnOk result (AreSame agent to.old to.new) }
    ensures adds { OnOk result ((plan : List (List ℕ)) (time : ℕ) →
        GoesOnFrom plan from.now.terms from.now.places.now from.now.numbers.now from.now.joint.now time
        → HaveGone plan from.now.places.now from.now.joint.now to.old agent cost (time + 1)
        → GoesBy plan from.now.places.now agent next.now (time + 1)
        → AreAtKnown plan from.now.places.now known.new cheap.new.items (time + 1)) }
{
    let sum = cost_by(cost, from.joint, agent, &next.place);
    if sum > from.terms.total {
        return Ok(());
    }
    if !is_apart(from.terms.rule, from.joint, &to.joint, agent, &next.place) {
        return Ok(());
    }
    to.joint[agent] = next.place;
    to.numbers[agent] = next.number;
    if agent + 1 < from.places.len() {
        add_from(alloc, from, to, agent + 1, sum, known, cheap)
    } else {
        add(alloc, from, to, sum, known, cheap)
    }
}

/// What a plan costs at least, where this agent goes on to a place, too.
fn cost_by(cost: u64, from: &Joint, agent: usize, place: &Place) -> u64
    requires { agent < MOST_TOGETHER }
    ensures { (most : ℕ) → cost ≤ most + (place_in from.now agent).cost → result ≤ most + place.now.cost }
{
    cost.saturating_sub(u64::from(from[agent].cost))
        .saturating_add(u64::from(place.cost))
}

/// Adds a joint place to which all agents have gone on, or puts it into the list.
fn add(
    alloc: Global,
    from: &From,
    to: &To,
    cost: u64,
    known: &mut JointPlaces,
    cheap: &mut Vec<Numbers>,
) -> Result<(), NoMemory>
    ensures grows { OnOk result (Grows known.old known.new) }
    ensures keeps { OnOk result ((x : List ℕ) → Contains cheap.old.items x → Contains cheap.new.items x) }
    ensures has { OnOk result (IsKnown known.new to.now.numbers ⊎ Contains cheap.new.items to.now.numbers) }
{
    if cost > from.cost {
        return known.add(alloc, &to.numbers, Some(from.number));
    }
    cheap.push(to.numbers)?;
    Ok(())
}

/// Adds the joint places to which agents may go from that one, so that those wait last that cost no more.
pub(crate) fn go_on(
    alloc: Global,
    terms: Terms,
    places: &[AgentPlaces],
    number: usize,
    numbers: &Numbers,
    joint: &Joint,
    known: &mut JointPlaces,
    cheap: &mut Vec<Numbers>,
) -> Result<(), NoMemory>
    requires some { 0 < length places.now }
    requires few { length places.now ≤ MOST_TOGETHER }
    ensures grows { OnOk result (Grows known.old known.new) }
    ensures next { OnOk result ((plan : List (List ℕ)) (time : ℕ) → GoesOnFrom plan terms places.now numbers.now joint.now time
        → AreAtKnown plan places.now known.new [] (time + 1)) }
{
    let cost = cost_of(joint, places.len());
    let mut to = To {
        numbers: [0; MOST_TOGETHER],
        joint: [Place::default(); MOST_TOGETHER],
    };
    let from = From {
        terms,
        places,
        number,
        numbers,
        joint,
        cost,
    };
    cheap.clear();
    add_from(alloc, &from, &mut to, 0, cost, known, cheap)?;
    add_all(alloc, cheap, number, known)
}

/// Adds joint places that came from another one.
fn add_all(
    alloc: Global,
    joints: &[Numbers],
    before: usize,
    known: &mut JointPlaces,
) -> Result<(), NoMemory>
    ensures grows { OnOk result (Grows known.old known.new) }
    ensures has { OnOk result ((x : List ℕ) → Contains joints.now x → IsKnown known.new x) }
{
    for joint in joints {
        known.add(alloc, joint, Some(before))?;
    }
    Ok(())
}
